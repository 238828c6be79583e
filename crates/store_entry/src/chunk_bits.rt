// The 22 bytes of an entry of the packed store as six larger fields: what stands before the user families, the families, and the last six bits.
ghost use Rattle.std.specs.Prelude.{◌≡◌, [], ◌∷◌, ◌+◌, ◌*◌, ◌/◌, ◌<◌, ◌^◌, ◌%◌, length};
ghost use Rattle.std.specs.Int.{w32, to_be_bytes};
ghost use Rattle.store_entry.specs.Chunks.{Joined, chunk_bytes, chunks_of, entry_chunks, chunks_in, regrouped};

// The bytes of an entry.
pub const ENTRY: usize = 22;

// Fields of 42, 32, 32, 32, 32 and 6 bits.
#[derive(Clone, Copy)]
pub struct Chunks {
    pub h: u64,
    pub u: u32,
    pub v: u32,
    pub w: u32,
    pub x: u32,
    pub tail: u8,
}

// The last two bits of a field and the first 30 of the next.
fn middle(x: u32, y: u32) -> [u8; 4]
    ensures { result ≡ to_be_bytes w32 (x % 4 * 1073741824 + y / 4) }
{
    (x % 4 * 1073741824 + y / 4).to_be_bytes()
}

// The bytes of fields that fit.
fn bytes_of(c: Chunks) -> [u8; 22]
    requires { (c.h < 2 ^ 42) × (c.tail < 64) }
    ensures { result ≡ chunk_bytes c.h c.u c.v c.w c.x c.tail }
{
    let a = (c.h / 4).to_be_bytes();
    let b = middle((c.h % 4) as u32, c.u);
    let d = middle(c.u, c.v);
    let e = middle(c.v, c.w);
    let f = middle(c.w, c.x);
    let last = (c.x % 4) as u8 * 64 + c.tail;
    // filled with zeros, as boards have a function for that; another value asks for one more
    let mut bytes = [0u8; ENTRY];
    bytes[..5].copy_from_slice(&a[3..]);
    bytes[5..9].copy_from_slice(&b);
    bytes[9..13].copy_from_slice(&d);
    bytes[13..17].copy_from_slice(&e);
    bytes[17..21].copy_from_slice(&f);
    bytes[21..].copy_from_slice(&[last]);
    bytes
}

// The bytes of six fields. A number that is too large for its field is kept to the field's width.
pub fn write(h: u64, s: u32, t: u32, y: u32, z: u32, tail: u64) -> [u8; 22]
    ensures { result ≡ chunk_bytes (h % 4398046511104) s t y z (tail % 64) }
{
    bytes_of(Chunks {
        h: h % 4398046511104,
        u: s,
        v: t,
        w: y,
        x: z,
        tail: (tail % 64) as u8,
    })
}

fn join4(a: u8, b: u8, c: u8, d: u8) -> u64
    ensures { Joined 4 (a ∷ b ∷ c ∷ d ∷ []) result }
{
    u64::from(u32::from_be_bytes([a, b, c, d]))
}

fn join5(a: u8, b: u8, c: u8, d: u8, e: u8) -> u64
    ensures { Joined 5 (a ∷ b ∷ c ∷ d ∷ e ∷ []) result }
{
    u64::from_be_bytes([0, 0, 0, a, b, c, d, e])
}

fn regroup(a: u64, b: u64, c: u64, d: u64, e: u64, f: u8) -> Chunks
    requires { (a < 2 ^ 40) × (b < 2 ^ 32) × (c < 2 ^ 32) × (d < 2 ^ 32) × (e < 2 ^ 32) }
    ensures { result ≡ regrouped a b c d e f }
{
    Chunks {
        h: a * 4 + b / 1073741824,
        u: (b % 1073741824 * 4 + c / 1073741824) as u32,
        v: (c % 1073741824 * 4 + d / 1073741824) as u32,
        w: (d % 1073741824 * 4 + e / 1073741824) as u32,
        x: (e % 1073741824 * 4 + u64::from(f) / 64) as u32,
        tail: f % 64,
    }
}

fn chunks_in(s: &[u8]) -> Chunks
    requires { length s.now ≡ 22 }
    ensures { result ≡ chunks_of s.now }
{
    let a = join5(s[0], s[1], s[2], s[3], s[4]);
    let b = join4(s[5], s[6], s[7], s[8]);
    let c = join4(s[9], s[10], s[11], s[12]);
    let d = join4(s[13], s[14], s[15], s[16]);
    let e = join4(s[17], s[18], s[19], s[20]);
    let f = s[21];
    regroup(a, b, c, d, e, f)
}

// The fields of 22 bytes; of another length, none.
#[tactic(auto, unfolding(crate::specs::Chunks::entry_chunks))]
pub fn read_entry(bytes: &[u8]) -> Option<Chunks>
    ensures { result ≡ entry_chunks bytes.now }
{
    if bytes.len() != ENTRY {
        return None;
    }
    Some(chunks_in(bytes))
}

// The same, and of another length zeros.
#[tactic(auto, unfolding(crate::specs::Chunks::chunks_in))]
pub fn read(bytes: &[u8]) -> Chunks
    ensures { result ≡ chunks_in bytes.now }
{
    if bytes.len() != ENTRY {
        return Chunks {
            h: 0,
            u: 0,
            v: 0,
            w: 0,
            x: 0,
            tail: 0,
        };
    }
    chunks_in(bytes)
}
