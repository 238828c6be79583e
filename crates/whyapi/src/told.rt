// What is told of a reason, and of bytes that are no settings.
ghost use Rattle.std.specs.Prelude.{◌≡◌, ◌<◌, length};
ghost use Rattle.whyapi.specs.Told.{bare, link_byte, link_told, settings_told};

// What is written of a reason.
#[derive(Clone, Copy)]
pub struct ReasonFields {
    pub number: u32,
    pub got: u64,
    pub against: u64,
    pub entry: u8,
    pub other: u8,
    pub marks: [u8; 16],
}

// The bytes of settings.
const SETTINGS: usize = 550;

// Those before the table, and those of an entry.
const HEAD: usize = 6;

const ENTRY: usize = 34;

// The number of "links to an index not below its own".
const LINKS_UP: u32 = 206;

impl ReasonFields {
    // Without an entry and marks.
    pub(crate) fn bare(number: u32, got: u64, against: u64) -> Self
        ensures { result ≡ bare number got against }
    {
        Self {
            number,
            got,
            against,
            entry: 0,
            other: 0,
            marks: [0; 16],
        }
    }
}

// The link kind's byte of entry k.
#[tactic(auto, using(crate::proofs::told::Laws::link_part))]
fn link_byte(bytes: &[u8], k: usize) -> u8
    requires bytes_len { length bytes.now ≡ 550 }
    requires k_bound { k < 16 }
    ensures { result ≡ link_byte bytes.now k }
{
    let at = HEAD + k * ENTRY;
    let e = &bytes[at..at + ENTRY];
    e[31]
}

// What is told of a link to a higher entry, where the byte is that of no link.
#[tactic(auto, using(crate::proofs::told::Laws::link_other, crate::proofs::told::Laws::link_far, crate::proofs::told::Laws::link_tells, crate::proofs::told::Laws::link_silent))]
fn link_told(bytes: &[u8], told: ReasonFields) -> ReasonFields
    requires { length bytes.now ≡ 550 }
    ensures { result ≡ link_told bytes.now told }
{
    if told.number != LINKS_UP {
        return told;
    }
    let k = told.entry;
    if 16 <= k {
        return told;
    }
    let kind = link_byte(bytes, k as usize);
    if 2 < kind {
        return ReasonFields {
            entry: k,
            ..ReasonFields::bare(211, kind as u64, 2)
        };
    }
    told
}

// Bytes that are no settings: no number is told that is not theirs.
#[tactic(auto, using(crate::proofs::told::Laws::short_told, crate::proofs::told::Laws::whole_told))]
pub fn settings_told(bytes: &[u8], told: ReasonFields) -> ReasonFields
    ensures { result ≡ settings_told bytes.now told }
{
    if bytes.len() != SETTINGS {
        return ReasonFields::bare(210, bytes.len() as u64, SETTINGS as u64);
    }
    link_told(bytes, told)
}
