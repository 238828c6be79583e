// The first other entry of the table that shares a sector with an entry.
ghost use Rattle.std.specs.Prelude.{◌≡◌};
ghost use Rattle.laws.specs.Sets.{least};
ghost use Rattle.partitions.specs.Settings.{shares_with};

use partitions::Settings;

// The first other entry that has a sector in common with entry k, and the count where none has. Past the table's
// end there is no sector.
#[tactic(auto, using(laws::proofs::Laws::any_zero, laws::proofs::Laws::any_more, laws::proofs::Laws::least_is, laws::proofs::Laws::least_none, crate::proofs::sharing::Laws::other_shares, crate::proofs::sharing::Laws::least_own_past, crate::proofs::sharing::Laws::least_past), unfolding(partitions::specs::Settings::overlap_at))]
pub fn first_other(settings: Settings, k: usize) -> usize
    ensures { result ≡ least settings.count (shares_with settings.table k) }
{
    let n = settings.count as usize;
    if Settings::ENTRIES <= k {
        return n;
    }
    let first = settings.table[k].first;
    let sectors = settings.table[k].sectors;
    for j in 0..n {
        if Settings::ENTRIES <= j {
            return n;
        }
        let e = settings.table[j];
        if (j != k) & partitions::sectors::sectors_overlap(first, sectors, e.first, e.sectors) {
            return j;
        }
    }
    n
}
