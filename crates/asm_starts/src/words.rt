//! What the words of a hart's request set, one after another.
#![tactic(auto, unfolding(crate::proofs::Unfold::words))]

ghost use Rattle.std.specs.Prelude.{◌≡◌, map};
ghost use Rattle.asm_requests.specs.Settings.{setting_parts};
ghost use Rattle.asm_requests.specs.Values.{held_parts};
ghost use Rattle.asm_requests.specs.Words.{word_parts};
ghost use Rattle.asm_harts.specs.Registers.{with_register};
ghost use Rattle.asm_starts.specs.Values.{on_ok, scene_parts};
ghost use Rattle.asm_starts.specs.Words.{
  capability_put,
  claimed,
  each_put,
  entry_put,
  integer_put,
  new_setup,
  register_claimed,
  setting_put,
  setup_parts,
  stack_put,
  word_at,
  word_put,
};

use crate::values::Scene;
use asm_harts::{LINK, Registers, STACK, no_registers};
use asm_requests::{Held, Setting, Word, setting_of};
use asm_tokens::{AsmFault, AsmFaultKind, Place};
use cheri_model::{Reg, Value};

/// The bytes of a stack of which no request says how many it has.
pub const STACK_BYTES: u64 = 4_096;

/// What words have set so far: registers, the address at which the hart begins, the bytes of its
/// stack; and which registers words have named.
#[derive(Clone, Copy)]
pub(crate) struct Setup {
    pub registers: Registers,
    pub start: Option<u64>,
    pub stack: u64,
    pub named: Registers,
}

/// Before the first word.
fn new_setup() -> Setup
    ensures { setup_parts result ≡ new_setup }
{
    Setup {
        registers: no_registers(),
        start: None,
        stack: STACK_BYTES,
        named: no_registers(),
    }
}

/// The registers that words have named, and one more. Fails with `Hart` where it is one of them.
fn claimed(named: Registers, register: Reg) -> Result<Registers, AsmFaultKind>
    ensures { result ≡ claimed named register }
{
    if named.is_set(register) {
        return Err(AsmFaultKind::Hart);
    }
    let mut named = named;
    named.set(register, Value::raw(0));
    Ok(named)
}

/// Registers of which one is set to a value.
fn with_register(registers: Registers, register: Reg, value: Value) -> Registers
    ensures { result ≡ with_register registers register value }
{
    let mut registers = registers;
    registers.set(register, value);
    registers
}

/// Where the hart begins. Fails with `Hart` where a word before has said it, and where the symbol
/// is none in code.
fn entry_put(setup: Setup, scene: Scene<'_>, name: &[u8]) -> Result<Setup, AsmFaultKind>
    ensures { on_ok setup_parts result
        ≡ entry_put (scene_parts scene.entry) (setup_parts setup) name.now }
{
    if setup.start.is_some() {
        return Err(AsmFaultKind::Hart);
    }
    let entry = scene.entry_at(name)?;
    Ok(Setup {
        registers: setup.registers,
        start: Some(entry.addr),
        stack: setup.stack,
        named: setup.named,
    })
}

/// The link is the exit, or isn't.
fn exit_put(setup: Setup) -> Result<Setup, AsmFaultKind>
    ensures { on_ok setup_parts result ≡ register_claimed (setup_parts setup) LINK }
{
    let named = claimed(setup.named, Reg::new(LINK))?;
    Ok(Setup {
        registers: setup.registers,
        start: setup.start,
        stack: setup.stack,
        named,
    })
}

/// The bytes of the stack.
fn stack_put(setup: Setup, size: u64) -> Result<Setup, AsmFaultKind>
    ensures { on_ok setup_parts result ≡ stack_put (setup_parts setup) size }
{
    let named = claimed(setup.named, Reg::new(STACK))?;
    Ok(Setup {
        registers: setup.registers,
        start: setup.start,
        stack: size,
        named,
    })
}

/// A register is an integer.
fn integer_put(setup: Setup, register: Reg, bits: u64) -> Result<Setup, AsmFaultKind>
    ensures { on_ok setup_parts result ≡ integer_put (setup_parts setup) register bits }
{
    let named = claimed(setup.named, register)?;
    let value = Value::raw(u128::from(bits));
    Ok(Setup {
        registers: with_register(setup.registers, register, value),
        start: setup.start,
        stack: setup.stack,
        named,
    })
}

/// A register is a capability. Fails with `Hart` where what it is to hold isn't there, and with
/// `Capability` where there is no such capability.
fn capability_put(
    setup: Setup,
    scene: Scene<'_>,
    register: Reg,
    held: &Held<'_>,
) -> Result<Setup, AsmFaultKind>
    ensures { on_ok setup_parts result
        ≡ capability_put (scene_parts scene.entry) (setup_parts setup) register
        (held_parts held.now) }
{
    let named = claimed(setup.named, register)?;
    let value = scene.held_value(held)?;
    Ok(Setup {
        registers: with_register(setup.registers, register, value),
        start: setup.start,
        stack: setup.stack,
        named,
    })
}

/// What a word sets. Fails with `Hart` where a word before it has named the same, and where a
/// symbol or the table isn't there; and with `Capability` where there is no such capability.
fn setting_put(setup: Setup, scene: Scene<'_>, setting: &Setting<'_>) -> Result<Setup, AsmFaultKind>
    ensures { on_ok setup_parts result
        ≡ setting_put (scene_parts scene.entry) (setup_parts setup)
        (setting_parts setting.now) }
{
    match setting {
        Setting::Entry(name) => entry_put(setup, scene, name),
        Setting::Stack(size) => stack_put(setup, *size),
        Setting::Exit(_) => exit_put(setup),
        Setting::Integer(register, bits) => integer_put(setup, *register, *bits),
        Setting::Capability(register, held) => capability_put(setup, scene, *register, held),
    }
}

/// What a word sets. Fails with `Hart` where it says nothing; else as `setting_put` does.
fn word_put(setup: Setup, scene: Scene<'_>, word: &[u8]) -> Result<Setup, AsmFaultKind>
    ensures { on_ok setup_parts result
        ≡ word_put (scene_parts scene.entry) (setup_parts setup) word.now }
{
    match setting_of(word) {
        Some(setting) => setting_put(setup, scene, &setting),
        None => Err(AsmFaultKind::Hart),
    }
}

/// The same of a word in a line, at which the fault is told.
fn word_at(setup: Setup, scene: Scene<'_>, line: usize, word: Word<'_>) -> Result<Setup, AsmFault>
    ensures { on_ok setup_parts result
        ≡ word_at (scene_parts scene.entry) line (word_parts word.entry)
        (setup_parts setup) }
{
    match word_put(setup, scene, word.text) {
        Ok(setup) => Ok(setup),
        Err(kind) => {
            let column = word.column;
            let place = Place { line, column };
            Err(AsmFault { kind, place })
        }
    }
}

/// What the words of a request in a line set, one after another, up to the first fault.
pub(crate) fn setup_of(scene: Scene<'_>, line: usize, words: &[Word<'_>]) -> Result<Setup, AsmFault>
    ensures { on_ok setup_parts result
        ≡ each_put (word_at (scene_parts scene.entry) line) (map word_parts words.now) new_setup }
{
    let mut setup = new_setup();
    for word in words {
        setup = word_at(setup, scene, line, *word)?;
    }
    Ok(setup)
}
