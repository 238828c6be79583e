// The families whose blocks may go to RAM; `place` has the definition.
ghost use Rattle.std.specs.Prelude.{◌≡◌};
ghost use Rattle.placement.specs.Place.{ram_family};

use partitions::{Family, Settings};

// May blocks of the family go to RAM? Links and switches are not asked.
pub fn ram_family(settings: Settings, family: u32) -> bool
    ensures { result ≡ ram_family settings family }
{
    if (Family::DATA <= family) & (family <= Family::ARM_NS) {
        return true;
    }
    let n = crate::passes::used_count(settings.count);
    // copied only where it is looked at
    let table = settings.table;
    for i in 0..n {
        if partitions::has_user(table[i], family) {
            return true;
        }
    }
    false
}
