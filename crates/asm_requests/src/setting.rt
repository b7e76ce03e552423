//! Settings: what a word of a hart's request says.
#![tactic(auto, unfolding(crate::proofs::Unfold::settings))]

ghost use Rattle.std.specs.Prelude.{◌≡◌, option_map};
ghost use Rattle.asm_requests.specs.Settings.{
  setting_parts,
  slot_of,
  exit_of,
  plain_setting,
  register_setting,
  named_setting,
  setting_of,
  is_link,
  drops_exit,
};

use crate::numbers::{integer_of, stack_of};
use crate::values::{Held, held_of};
use asm_names::{RegisterKind, RegisterName, register_named};
use cheri_model::Reg;
use text_parts::parted;

/// What a word of a hart's request says.
#[derive(Clone, Copy)]
pub enum Setting<'a> {
    /// The hart begins at this symbol.
    Entry(&'a [u8]),
    /// The bytes of its stack, 0 for none.
    Stack(u64),
    /// Whether the link is the exit.
    Exit(bool),
    /// A register is an integer.
    Integer(Reg, u64),
    /// A register is a capability.
    Capability(Reg, Held<'a>),
}

impl<'a> Setting<'a> {
    /// What is set, which is set once: a register, by its number, or 32 for the entry. A stack is
    /// register 2, and the exit register 1.
    pub fn slot(self) -> u8
        ensures { result ≡ slot_of (setting_parts self.entry) }
    {
        match self {
            Setting::Entry(_) => 32,
            Setting::Stack(_) => 2,
            Setting::Exit(_) => 1,
            Setting::Integer(register, _) => register.number(),
            Setting::Capability(register, _) => register.number(),
        }
    }
}

/// `yes` or `no`.
fn exit_of(text: &[u8]) -> Option<bool>
    ensures { result ≡ exit_of text.now }
{
    if text == b"yes".as_slice() {
        return Some(true);
    }
    if text == b"no".as_slice() {
        return Some(false);
    }
    None
}

/// A setting that is no register's.
fn plain_setting<'a>(name: &[u8], text: &'a [u8]) -> Option<Setting<'a>>
    ensures { option_map setting_parts result ≡ plain_setting name.now text.now }
{
    if name == b"entry".as_slice() {
        return Some(Setting::Entry(text));
    }
    if name == b"stack".as_slice() {
        return Some(Setting::Stack(stack_of(text)?));
    }
    if name == b"exit".as_slice() {
        return Some(Setting::Exit(exit_of(text)?));
    }
    None
}

/// A register's setting. Register 0 has none.
fn register_setting<'a>(name: RegisterName, text: &'a [u8]) -> Option<Setting<'a>>
    ensures { option_map setting_parts result ≡ register_setting name text.now }
{
    let register = name.register;
    if register.number() == 0 {
        return None;
    }
    match name.kind {
        RegisterKind::Integer => Some(Setting::Integer(register, integer_of(text)?)),
        RegisterKind::Capability => match held_of(text) {
            Some(held) => Some(Setting::Capability(register, held)),
            None => None,
        },
    }
}

/// The setting of this name with this value.
fn named_setting<'a>(name: &[u8], text: &'a [u8]) -> Option<Setting<'a>>
    ensures { option_map setting_parts result ≡ named_setting name.now text.now }
{
    if text.is_empty() {
        return None;
    }
    match register_named(name) {
        Some(register) => register_setting(register, text),
        None => plain_setting(name, text),
    }
}

/// What a word of a hart's request says: `NAME=VALUE`. `None` where it says nothing.
pub fn setting_of<'a>(word: &'a [u8]) -> Option<Setting<'a>>
    ensures { option_map setting_parts result ≡ setting_of word.now }
{
    let (name, text) = parted(b'=', word)?;
    named_setting(name, text)
}

/// Whether a name is that of the register of links.
fn is_link(name: &[u8]) -> bool
    ensures { result ≡ is_link name.now }
{
    if name == b"cra".as_slice() || name == b"c1".as_slice() {
        return true;
    }
    name == b"ra".as_slice() || name == b"x1".as_slice()
}

/// Whether a hart whose request has this word is given no exit.
pub fn drops_exit(word: &[u8]) -> bool
    ensures { result ≡ drops_exit word.now }
{
    if word == b"exit=no".as_slice() {
        return true;
    }
    match parted(b'=', word) {
        Some((name, _)) => is_link(name),
        None => is_link(word),
    }
}
