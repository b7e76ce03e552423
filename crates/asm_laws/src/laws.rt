//! What expansions mean, over the machine's own step.
#![tactic(auto, using(crate::proofs::Rulesets::laws))]

ghost use Rattle.std.specs.Prelude.{◌≡◌, ℕ, ℤ, pos, ◌<◌, ◌≢◌, ◌%◌, ◌^◌, List, [], ◌∷◌};
ghost use Rattle.std.specs.Prelude.{length, replicate, FitsSigned};
ghost use Rattle.std.specs.Int.{w64};
ghost use Rattle.cheri_model.specs.declared.instr.Instr.{Instr};
ghost use Rattle.cap_model.specs.values.CapValue.{CapValue};
ghost use Rattle.cheri_model.specs.declared.instr.Instr.TheVariants.{Addi, CIncOffsetImm};
ghost use Rattle.cheri_model.specs.declared.instr.Instr.TheVariants.{CJalr, Lc};
ghost use Rattle.cheri_model.specs.steps.Memory.{load_capability};
ghost use Rattle.cheri_model.specs.declared.trace.TheConstants.Trap.{TAG};
ghost use Rattle.cap_model.specs.results.Addresses.{with_address};
ghost use Rattle.cheri_model.specs.steps.Hart.{HartState, integer, put, word_of_integer};
ghost use Rattle.cheri_model.specs.steps.HartStep.{done, hart_step, trapped};
ghost use Rattle.cheri_model.specs.runs.Image.{ImageParts};
ghost use Rattle.cheri_model.specs.runs.Machine.{MachineState, hart_at};
ghost use Rattle.cheri_model.specs.runs.Replay.{state_after_steps};
ghost use Rattle.asm_expansions.specs.Immediates.{bits_of, low};
ghost use Rattle.asm_expansions.specs.Constants.{li};
ghost use Rattle.asm_expansions.specs.Expansions.{pseudo_two, pseudo_three};
ghost use Rattle.asm_expansions.specs.declared.operation.PseudoTwoOp.{PseudoTwoOp};
ghost use Rattle.asm_expansions.specs.declared.operation.PseudoThreeOp.{PseudoThreeOp};
ghost use Rattle.asm_laws.specs.Stretches.{StandsAt, HasRegisters, Leaves, after_steps, with_hart};
ghost use Rattle.asm_laws.specs.Meanings.{two_value, three_value};
ghost use Rattle.asm_laws.specs.Pairs.{pair, Reaches, IsEntry, IsEntryOfTable};
ghost use Rattle.asm_laws.specs.Pairs.{arrived, link_behind};

/// In a machine's replay steps of one hart leave what they leave of that hart and of memory, and
/// the other harts as they were. So the laws below, of a hart alone, are laws of replays.
pub fn steps_of_one_hart_are_replayed()
    ensures { (image : ImageParts) (state : MachineState) (number count : ℕ)
        → number < length state.harts
        → state_after_steps image state (replicate count number)
        ≡ with_hart state number
        (after_steps image.program count (done (hart_at state number) state.memory)) }
{}

/// After as many steps as `li` has instructions the register has the constant, of any 64 bits, and
/// PC is behind them. Nothing else has changed.
pub fn li_leaves_its_constant()
    ensures { (program : List Instr) (hart : HartState) (memory : List CapValue) (rd : ℕ) (n : ℤ)
        → FitsSigned w64 n → rd < 32 → HasRegisters hart → StandsAt program (li rd n) hart
        → Leaves program (li rd n) hart memory (put rd (word_of_integer (bits_of n)) hart) }
{}

/// After as many steps as a pseudo-instruction on registers has instructions its destination has
/// the number that it means, and PC is behind them. Nothing else has changed.
pub fn pseudo_instructions_leave_their_values()
    ensures two { (program : List Instr) (hart : HartState) (memory : List CapValue)
        (op : PseudoTwoOp) (d s : ℕ) → d < 32 → integer hart s < 2 ^ 64 → HasRegisters hart
        → StandsAt program (pseudo_two op d s) hart
        → Leaves program (pseudo_two op d s) hart memory
        (put d (word_of_integer (two_value op (integer hart s))) hart) }
    ensures three { (program : List Instr) (hart : HartState) (memory : List CapValue)
        (op : PseudoThreeOp) (d s t : ℕ) → StandsAt program (pseudo_three op d s t ∷ []) hart
        → Leaves program (pseudo_three op d s t ∷ []) hart memory
        (put d (word_of_integer (three_value op (integer hart s) (integer hart t))) hart) }
{}

/// A pair whose place lies in PCC's bounds, or at their end, arrives there: `cllc` leaves PCC with
/// the place as its address, and so with its tag, and `la` the address as an integer. PC is behind
/// the pair, and nothing else has changed.
pub fn pairs_reach_their_place()
    ensures cllc { (program : List Instr) (hart : HartState) (memory : List CapValue) (cd : ℕ)
        (distance : ℤ) (place : ℕ) → cd < 32
        → Reaches program cd (CIncOffsetImm cd cd (low (bits_of distance))) distance place hart
        → Leaves program (pair cd (CIncOffsetImm cd cd (low (bits_of distance))) distance)
        hart memory (put cd (with_address hart.pcc (place % 2 ^ 64)) hart) }
    ensures la { (program : List Instr) (hart : HartState) (memory : List CapValue) (cd : ℕ)
        (distance : ℤ) (place : ℕ) → cd < 32
        → Reaches program cd (Addi cd cd (low (bits_of distance))) distance place hart
        → Leaves program (pair cd (Addi cd cd (low (bits_of distance))) distance) hart memory
        (put cd (word_of_integer (place % 2 ^ 64)) hart) }
{}

/// A pair whose place is a granule that PCC may load from: `clgc` leaves the value there, with its
/// tag. PC is behind the pair, and nothing else has changed.
pub fn table_entries_are_loaded()
    ensures { (program : List Instr) (hart : HartState) (memory : List CapValue) (cd : ℕ)
        (distance : ℤ) (place : ℕ) → cd < 32 → cd ≢ 0
        → Reaches program cd (Lc cd cd (low (bits_of distance))) distance place hart
        → IsEntryOfTable place hart memory
        → Leaves program (pair cd (Lc cd cd (low (bits_of distance))) distance) hart memory
        (put cd (load_capability memory place) hart) }
{}

/// After two steps a call is at its place with the link behind it in the register that it goes
/// through, and a tail call is at its place with something else in c6. Nothing else has changed.
pub fn calls_arrive()
    ensures call { (program : List Instr) (hart : HartState) (memory : List CapValue) (cd : ℕ)
        (distance : ℤ) (place : ℕ) → cd < 32 → cd ≢ 0
        → Reaches program cd (CJalr cd cd (low (bits_of distance))) distance place hart
        → IsEntry place hart → after_steps program 2 (done hart memory)
        ≡ done (arrived place hart (put cd (link_behind 2 hart) hart)) memory }
    ensures tail { (program : List Instr) (hart : HartState) (memory : List CapValue)
        (distance : ℤ) (place : ℕ)
        → Reaches program 6 (CJalr 0 6 (low (bits_of distance))) distance place hart
        → IsEntry place hart
        → (w : CapValue) × (after_steps program 2 (done hart memory)
        ≡ done (arrived place hart (put 6 w hart)) memory) }
{}

/// `unimp` traps: the tag of c0 is not set.
pub fn unimp_traps()
    ensures { (program : List Instr) (hart : HartState) (memory : List CapValue)
        → HasRegisters hart → StandsAt program (CJalr 0 0 (pos 0) ∷ []) hart
        → hart_step program hart memory ≡ trapped (record { cause = TAG; reg = 0 }) hart memory }
{}
