// Two runs of sectors: whether they have one in common.
ghost use Rattle.std.specs.Prelude.{◌≡◌};
ghost use Rattle.partitions.specs.Settings.{overlap};

// Have n sectors from f and m sectors from g one in common? In usize no sum wraps.
#[tactic(auto, unfolding(crate::specs::Settings::overlap))]
pub fn sectors_overlap(f: u32, n: u32, g: u32, m: u32) -> bool
    ensures { result ≡ overlap f n g m }
{
    let from = f as usize;
    let to = from + n as usize;
    let other = g as usize;
    let other_to = other + m as usize;
    (0 < n) & (0 < m) & (from < other_to) & (other < to)
}
