// What C calls: the three operations of `checker`, under the names of include/mergecheck.h. A slice is passed as a pointer and a length, an array as a pointer.
#![tactic(auto)]

ghost use Rattle.std.specs.Prelude.{◌≡◌};
ghost use Rattle.paper.specs.Contract.{returned};
ghost use Rattle.paper.specs.Computed.{sharing_of, closure_of};
ghost use Rattle.checker.specs.Gave.{packed};
ghost use Rattle.checker.specs.Numbers.{sharing_kind, sharing_numbers, closure_kind, closure_numbers};

// Judges the file and writes the answer to the start of the buffer.
// Gives the refusal's number (0 when not malformed) times 256, plus the answer's length, which is under 128.
#[unsafe(no_mangle)]
pub extern "C" fn mergecheck(file: &[u8], out: &mut [u8]) -> u64
    ensures { (result ≡ packed (returned file.now out.old))
        × (out.new ≡ (returned file.now out.old).buffer) }
{
    checker::mergecheck(file, out)
}

// Asks the first question, and fills the four numbers: the refusal's number and line, the class, the state of B.
// Gives 0 for nothing, 1 for a pair, 2 for a refusal.
#[unsafe(no_mangle)]
pub extern "C" fn mergecheck_sharing(file: &[u8], answer: &mut [u32; 4]) -> u32
    ensures { (result ≡ sharing_kind (sharing_of file.now)) × (answer.new ≡ sharing_numbers (sharing_of file.now)) }
{
    checker::mergecheck_sharing(file, answer)
}

// Asks the second question, and fills the nine numbers: the refusal's number and line, the rule, the classes of x0 to x3, the class, the
// examined count. Gives 0 for closed, 1 for a critical pair, 2 for stopped, 3 for a refusal.
#[unsafe(no_mangle)]
pub extern "C" fn mergecheck_closure(file: &[u8], answer: &mut [u32; 9]) -> u32
    ensures { (result ≡ closure_kind (closure_of file.now)) × (answer.new ≡ closure_numbers (closure_of file.now)) }
{
    checker::mergecheck_closure(file, answer)
}
