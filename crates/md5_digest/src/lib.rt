// The MD5 message digest (RFC 1321) of a slice of bytes.
#![tactic(auto)]

pub mod schedule;

ghost use Rattle.std.specs.Prelude.{◌≡◌, ◌+◌, ◌-◌, ◌*◌, ◌/◌, ◌%◌, ◌<◌, ◌≤◌, ◌++◌, length};
ghost use Rattle.laws.specs.Bytes.{low_first, number_in};
ghost use Rattle.md5_digest.specs.declared.Digest.{Digest};
ghost use Rattle.md5_digest.specs.Md5.{sines, shifts, f_of, g_of, h_of, i_of, operation_of, step_of, steps_of, block_of, blocks_of, pad_with, pad_of, md5_of};

// The four words A, B, C, D: of the digest, and of the buffer on the way to it.
#[derive(Clone, Copy, PartialEq, Eq)]
pub struct Digest {
    pub a: u32,
    pub b: u32,
    pub c: u32,
    pub d: u32,
}

// The four functions, one a round.
fn mix_f(x: u32, y: u32, z: u32) -> u32
    ensures { result ≡ f_of x y z }
{
    (x & y) | (!x & z)
}

fn mix_g(x: u32, y: u32, z: u32) -> u32
    ensures { result ≡ g_of x y z }
{
    (x & z) | (y & !z)
}

fn mix_h(x: u32, y: u32, z: u32) -> u32
    ensures { result ≡ h_of x y z }
{
    x ^ y ^ z
}

fn mix_i(x: u32, y: u32, z: u32) -> u32
    ensures { result ≡ i_of x y z }
{
    y ^ (x | !z)
}

// The word at an offset.
fn word(m: &[u8], at: usize) -> u32
    requires { at + 4 ≤ length m.now }
    ensures { result ≡ number_in 4 m.now at }
{
    u32::from_le_bytes([m[at], m[at + 1], m[at + 2], m[at + 3]])
}

// Operation i of a block, with the value f of its function and the word p of the block.
fn operation(
    m: &[u8],
    ks: &[u32; 64],
    ns: &[u32; 64],
    i: usize,
    f: u32,
    p: usize,
    s: Digest,
) -> Digest
    requires { (i < 64) × (p < 16) × (64 ≤ length m.now) × (ks.now ≡ sines) × (ns.now ≡ shifts) }
    ensures { result ≡ operation_of m.now i f p s }
{
    let w = word(m, 4 * p);
    // f is added last: it waits for the operation before
    let x = s.a.wrapping_add(w).wrapping_add(ks[i]).wrapping_add(f);
    Digest {
        a: s.d,
        b: s.b.wrapping_add(x.rotate_left(ns[i])),
        c: s.b,
        d: s.c,
    }
}

// Operation i of a block, which round R has: by the round its function, and the word that it takes.
fn step<const R: usize>(m: &[u8], ks: &[u32; 64], ns: &[u32; 64], i: usize, s: Digest) -> Digest
    requires round { (R < 4) × (16 * R ≤ i) × (i < 16 * R + 16) }
    requires tables { (64 ≤ length m.now) × (ks.now ≡ sines) × (ns.now ≡ shifts) }
    ensures { result ≡ step_of m.now i s }
{
    if R == 0 {
        return operation(m, ks, ns, i, mix_f(s.b, s.c, s.d), i, s);
    }
    if R == 1 {
        return operation(m, ks, ns, i, mix_g(s.b, s.c, s.d), (5 * i + 1) % 16, s);
    }
    if R == 2 {
        return operation(m, ks, ns, i, mix_h(s.b, s.c, s.d), (3 * i + 5) % 16, s);
    }
    operation(m, ks, ns, i, mix_i(s.b, s.c, s.d), 7 * i % 16, s)
}

// The 16 operations of round R.
fn round<const R: usize>(m: &[u8], ks: &[u32; 64], ns: &[u32; 64], s: Digest) -> Digest
    requires round { R < 4 }
    requires tables { (64 ≤ length m.now) × (ks.now ≡ sines) × (ns.now ≡ shifts) }
    ensures { (start : Digest) → s ≡ steps_of m.now start (16 * R) → result ≡ steps_of m.now start (16 * R + 16) }
{
    let mut t = s;
    for i in 16 * R..16 * R + 16 {
        t = step::<R>(m, ks, ns, i, t);
    }
    t
}

// A block: its four rounds, and the words from before it added.
fn block(m: &[u8], ks: &[u32; 64], ns: &[u32; 64], s: Digest) -> Digest
    requires { (64 ≤ length m.now) × (ks.now ≡ sines) × (ns.now ≡ shifts) }
    ensures { result ≡ block_of m.now s }
{
    let f = round::<0>(m, ks, ns, s);
    let g = round::<1>(m, ks, ns, f);
    let h = round::<2>(m, ks, ns, g);
    let t = round::<3>(m, ks, ns, h);
    Digest {
        a: s.a.wrapping_add(t.a),
        b: s.b.wrapping_add(t.b),
        c: s.c.wrapping_add(t.c),
        d: s.d.wrapping_add(t.d),
    }
}

// The first n blocks of a slice. The tables are copied once and lent: a constant that is indexed in a loop is built anew at each use.
fn blocks(l: &[u8], n: usize, s: Digest) -> Digest
    requires { 64 * n ≤ length l.now }
    ensures { result ≡ blocks_of l.now s n }
{
    let ks = crate::schedule::sines();
    let ns = crate::schedule::shifts();
    let mut t = s;
    for k in 0..n {
        let a = 64 * k;
        let e = a + 64;
        t = block(&l[a..e], &ks, &ns, t);
    }
    t
}

// The length in bits of n bytes, in eight bytes, the lowest first: the low 64 bits.
fn bits(n: usize) -> [u8; 8]
    ensures { result ≡ low_first 8 (8 * n) }
{
    (n as u64).wrapping_mul(8).to_le_bytes()
}

// The last part of a message of n bytes, less than a block, with the padding and, from e on, the length.
fn last(rest: &[u8], n: usize, e: usize, s: Digest) -> Digest
    requires { (length rest.now ≡ n % 64) × (n % 64 < e) × (e ≤ 120) }
    ensures { result ≡ blocks_of (rest.now ++ pad_with (e - 1 - n % 64) n) s ((e + 8) / 64) }
{
    let mut tail = [0u8; 128];
    let r = rest.len();
    tail[..r].copy_from_slice(rest);
    tail[r] = 128;
    let f = e + 8;
    tail[e..f].copy_from_slice(&bits(n));
    blocks(&tail, f / 64, s)
}

// The last part of a message, with the padding and the length where it goes.
fn finish(rest: &[u8], n: usize, s: Digest) -> Digest
    requires { length rest.now ≡ n % 64 }
    ensures { result ≡ blocks_of (rest.now ++ pad_of n) s ((n % 64 + 72) / 64) }
{
    last(rest, n, crate::schedule::length_at(n), s)
}

// The digest of a slice.
pub fn hash(region: &[u8]) -> Digest
    ensures { result ≡ md5_of region.now }
{
    let n = region.len();
    let q = n / 64;
    let s = blocks(
        region,
        q,
        Digest {
            a: 0x67452301,
            b: 0xefcdab89,
            c: 0x98badcfe,
            d: 0x10325476,
        },
    );
    let a = 64 * q;
    finish(&region[a..n], n, s)
}
