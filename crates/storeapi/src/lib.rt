// The packed store of settings for C: a library beside that of `capi`. Settings are bytes in the layout of `layout`.
#![tactic(auto)]

ghost use Rattle.std.specs.Prelude.{◌≡◌};
ghost use Rattle.storeapi.specs.Calls.{store_call, told_of, store_read_call, store_write_call};

use partitions::Settings;
use settings_store::write::StoreError;

// The bytes of settings.
const SETTINGS: usize = settings_layout::SETTINGS;

// Writes the settings that were read. A refusal leaves the bytes.
#[tactic(auto, unfolding(crate::specs::Calls::told_of, crate::specs::Calls::kept_settings))]
fn tell(read: Result<Settings, StoreError>, settings: &mut [u8]) -> u32
    ensures { store_call result settings.new ≡ told_of settings.old read }
{
    match read {
        Ok(s) => {
            settings_layout::write_settings(settings, s);
            0
        }
        Err(refusal) => u32::from(refusal.number()),
    }
}

// The settings of a store: 0 and the settings in `settings`, or the number of a refusal.
// Kept, C interface: `uf2_tag_find` has the same shape for another value.
#[unsafe(no_mangle)]
pub extern "C" fn uf2_store_read(store: &[u8], flash_len: usize, settings: &mut [u8]) -> u32
    ensures { store_call result settings.new ≡ store_read_call store.now flash_len settings.old }
{
    if settings.len() != SETTINGS {
        return 1;
    }
    tell(settings_store::read(store, flash_len), settings)
}

// The store of settings: 0 and the store at the start of `store`, or the number of a refusal.
#[unsafe(no_mangle)]
pub extern "C" fn uf2_store_write(settings: &[u8], flash_len: usize, store: &mut [u8]) -> u32
    ensures { store_call result store.new ≡ store_write_call settings.now flash_len store.old }
{
    let s = settings_layout::read_settings(settings);
    let written = settings_store::write::write(s, flash_len, store);
    u32::from(settings_store::write::number(written))
}
