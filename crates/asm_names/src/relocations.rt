//! The names of relocation functions, which come after `%`.
#![tactic(auto, unfolding(crate::specs::Relocations::relocation_of))]

ghost use Rattle.std.specs.Prelude.{◌≡◌};
ghost use Rattle.asm_names.specs.Relocations.{relocation_of};

use cheri_model::table::found_at;

/// What a relocation function is.
#[derive(Clone, Copy, Debug, PartialEq, Eq)]
pub enum Relocation {
    /// The upper bits of a value.
    Hi,
    /// Its lower bits.
    Lo,
    /// The upper bits of the distance to a place.
    PcrelHi,
    /// The lower bits of such a distance, by the place of the instruction with the upper ones.
    PcrelLo,
    /// The upper bits of the distance to a symbol's entry in the capability table.
    CaptabPcrelHi,
    /// What assemblers know and this one refuses.
    Outside,
}

const RELOCATIONS: &[(&str, Relocation)] = &[
    ("hi", Relocation::Hi),
    ("lo", Relocation::Lo),
    ("pcrel_hi", Relocation::PcrelHi),
    ("pcrel_lo", Relocation::PcrelLo),
    ("captab_pcrel_hi", Relocation::CaptabPcrelHi),
    ("got_pcrel_hi", Relocation::Outside),
    ("tprel_hi", Relocation::Outside),
    ("tprel_lo", Relocation::Outside),
    ("tprel_add", Relocation::Outside),
    ("tprel_cincoffset", Relocation::Outside),
    ("tls_ie_pcrel_hi", Relocation::Outside),
    ("tls_gd_pcrel_hi", Relocation::Outside),
    ("tls_ie_captab_pcrel_hi", Relocation::Outside),
    ("tls_gd_captab_pcrel_hi", Relocation::Outside),
    ("ccall", Relocation::Outside),
    ("cheriot_compartment_hi", Relocation::Outside),
    ("cheriot_compartment_lo_i", Relocation::Outside),
    ("cheriot_compartment_lo_s", Relocation::Outside),
];

/// The relocation function of a name; `None` where assemblers know none.
pub fn relocation_of(name: &[u8]) -> Option<Relocation>
    ensures { result ≡ relocation_of name.now }
{
    found_at(RELOCATIONS, name)
}
