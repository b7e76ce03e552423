//! The words for what a search left out.

ghost use Rattle.std.specs.Prelude.{◌≡◌, ◌++◌, IfOk, OnOk, false, map, string_bytes};
ghost use Rattle.reduced_texts.specs.ReducedTexts.{
  group_word,
  group_words,
  harts_text,
  left_out_words,
  register_words,
};

use cheri_model::NoMemory;
use hart_order::HartGroups;
use reductions::LeftOut;
use report_lines::write_comma;
use std::alloc::Global;

/// Appends the numbers of a group's harts, with commas between them.
fn write_harts(out: &mut String, groups: &HartGroups, group: u8) -> Result<(), NoMemory>
    ensures { OnOk result (string_bytes out.new
        ≡ string_bytes out.old ++ harts_text group false 0 groups.now) }
{
    let mut later = false;
    for (hart, of) in groups.iter().enumerate() {
        if *of == group {
            write_comma(out, later)?;
            write!(out, "{hart}")?;
            later = true;
        }
    }
    Ok(())
}

/// The word for a group.
fn group_word(alloc: Global, groups: &HartGroups, group: u8) -> Result<String, NoMemory>
    ensures { IfOk result (λ word. string_bytes word ≡ group_word groups.now group) }
{
    let mut word = String::new(alloc);
    word.push_str("harts=")?;
    write_harts(&mut word, groups, group)?;
    Ok(word)
}

/// Adds the word for a group, if it has any hart.
fn push_group(
    alloc: Global,
    words: &mut Vec<String>,
    groups: &HartGroups,
    group: u8,
) -> Result<(), NoMemory>
    ensures { OnOk result (map string_bytes words.new.items
        ≡ map string_bytes words.old.items ++ group_words groups.now group) }
{
    if groups.contains(&group) {
        words.push(group_word(alloc, groups, group)?)?;
    }
    Ok(())
}

/// The word for registers, where they were left out.
fn register_words(alloc: Global, registers: bool) -> Result<Vec<String>, NoMemory>
    ensures { IfOk result (λ words. map string_bytes words.items ≡ register_words registers) }
{
    let mut words = Vec::new(alloc);
    if registers {
        words.push(String::from_str(alloc, "registers")?)?;
    }
    Ok(words)
}

/// The words for what a search left out.
pub(crate) fn left_out_words(alloc: Global, left_out: LeftOut) -> Result<Vec<String>, NoMemory>
    ensures { IfOk result (λ words. map string_bytes words.items ≡ left_out_words left_out) }
{
    let mut words = register_words(alloc, left_out.registers)?;
    for number in 0..8 {
        push_group(alloc, &mut words, &left_out.groups, number + 1)?;
    }
    Ok(words)
}
