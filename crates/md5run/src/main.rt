// Prints the MD5 digests of the strings of RFC 1321's test suite (A.5), in the lines that the RFC has.
#![tactic(auto)]

use std::io;

// the strings of the test suite
const SUITE: [&[u8]; 7] = [
    b"",
    b"a",
    b"abc",
    b"message digest",
    b"abcdefghijklmnopqrstuvwxyz",
    b"ABCDEFGHIJKLMNOPQRSTUVWXYZabcdefghijklmnopqrstuvwxyz0123456789",
    b"12345678901234567890123456789012345678901234567890123456789012345678901234567890",
];

// A word's four bytes in hexadecimal, the lowest first.
fn print_word(rt: &impl Print, word: u32) -> io::Result<()> {
    for byte in word.to_le_bytes() {
        print!(rt; "{byte:02x}")?;
    }
    Ok(())
}

fn print_line(rt: &impl Print, text: &[u8]) -> io::Result<()> {
    let digest = md5_digest::hash(text);
    rt.write_all(b"MD5 (\"")?;
    rt.write_all(text)?;
    rt.write_all(b"\") = ")?;
    for word in [digest.a, digest.b, digest.c, digest.d] {
        print_word(rt, word)?;
    }
    rt.write_all(b"\n")
}

fn main(rt: HostRuntime) -> io::Result<()> {
    rt.write_all(b"MD5 test suite:\n")?;
    for text in SUITE {
        print_line(&rt, text)?;
    }
    Ok(())
}
