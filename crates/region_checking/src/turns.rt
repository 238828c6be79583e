// The pieces of a file in turn, and what a step does with each.
ghost use Rattle.std.specs.Prelude.{◌≡◌, ℕ, ◌<◌, ◌/◌, List, length};
ghost use Rattle.std.specs.Fork.{AcceptsAt, ChangesAt};
ghost use Rattle.file_check.specs.Regions.{in_turn};

use uf2_block::Block;

fn one<F: Fn(usize, &mut [u8])>(step: &F, k: usize, bytes: &mut [u8])
    requires { AcceptsAt F.Fn step.now k bytes.old }
    ensures { ChangesAt F.Fn step.now k bytes.old bytes.new }
{
    step(k, bytes);
}

// A step is taken for every piece, by its number, and changes bytes.
pub(crate) fn each_piece<F: Fn(usize, &mut [u8])>(file: &[u8], bytes: &mut [u8], step: &F)
    requires { (k : ℕ) (m : List ℕ) → k < length file.now / 512 → AcceptsAt F.Fn step.now k m }
    ensures { (S : ℕ → List ℕ → List ℕ) → ((k : ℕ) (m r : List ℕ) → k < length file.now / 512 → ChangesAt F.Fn step.now k m r → r ≡ S k m) → bytes.new ≡ in_turn S bytes.old (length file.now / 512) }
{
    let n = file.len() / Block::ARRIVAL;
    for k in 0..n {
        one(step, k, bytes);
    }
}
