// A plan for the flash, which a driver carries out, or `perform` on flash that is memory: made for a page, and performed.
#![tactic(auto)]

ghost use Rattle.std.specs.Prelude.{◌≡◌};
ghost use Rattle.memory.specs.Flash.{payload_of};
ghost use Rattle.flash_plan.specs.Plan.{plan_number, performed, sector_paged, sector_paged_of};

use memory::flash::Flash;

// What is left to do to the flash: nothing; the arrival's payload is programmed at an address; its sector is erased before.
#[derive(Clone, Copy)]
pub enum Plan {
    Nothing,
    Program(usize),
    EraseProgram { sector: usize, at: usize },
}

impl Plan {
    // The number of the deed, for C.
    pub fn number(self) -> u32
        ensures { result ≡ plan_number self }
    {
        match self {
            Plan::Nothing => 0,
            Plan::Program(_) => 1,
            Plan::EraseProgram { sector: _, at: _ } => 2,
        }
    }
}

// A page of flash: its sector is marked, and is to be erased first where it was not.
pub fn flash_page(at: usize, sectors: &mut [u8]) -> Plan
    ensures { sector_paged result sectors.new ≡ sector_paged_of at sectors.old }
{
    let sector = at / Flash::SECTOR;
    let erased = memory::bitmap::marked(sectors, sector);
    memory::bitmap::mark(sectors, sector);
    if erased {
        return Plan::Program(at);
    }
    Plan::EraseProgram { sector, at }
}

// Carries a plan out on flash that is memory.
pub fn perform(plan: Plan, arrival: &[u8], flash: &mut [u8])
    ensures { flash.new ≡ performed plan (payload_of arrival.now) flash.old }
{
    match plan {
        Plan::Nothing => {}
        Plan::Program(at) => memory::flash::store(flash, at, arrival),
        Plan::EraseProgram { sector, at } => {
            memory::flash::erase(flash, sector);
            memory::flash::store(flash, at, arrival);
        }
    }
}
