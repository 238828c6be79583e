// Both maps cleared where a transfer begins.
ghost use Rattle.std.specs.Prelude.{◌≡◌};
ghost use Rattle.arrival.specs.Arrive.{cleared_if};

// Takes every mark away where a transfer begins.
fn clear_if(clears: bool, map: &mut [u8])
    ensures { map.new ≡ cleared_if clears map.old }
{
    if clears {
        memory::bitmap::clear(map);
    }
}

// The same of the seen map and of the sector map.
pub fn clear_maps(clears: bool, seen: &mut [u8], sectors: &mut [u8])
    ensures { (seen.new ≡ cleared_if clears seen.old) × (sectors.new ≡ cleared_if clears sectors.old) }
{
    clear_if(clears, sectors);
    clear_if(clears, seen);
}
