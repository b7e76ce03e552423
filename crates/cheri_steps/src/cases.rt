//! Cases: what one step finds.

use crate::numbers::{number_of, value};
use crate::operands::Operands;
use cap_ops::Cap;
use cheri_model::names::{Mnemonic, mnemonic_of};

/// The numbers of a case after the instruction's name.
const COUNT: usize = 19;

/// What one step finds: the instruction, which each place of the code has, how many places the code
/// has, the granules of RAM, PCC, the values of c1 and c2, and a granule by its number.
#[derive(Clone, Copy)]
pub struct Case {
    pub mnemonic: Mnemonic,
    pub operands: Operands,
    pub code: u64,
    pub granules: u64,
    pub pcc: Cap,
    pub first: Cap,
    pub second: Cap,
    pub place: u64,
    pub granule: Cap,
}

/// The numbers that these words write; `None` where one writes none, or where they are not as many
/// as a case has.
fn numbers_of(words: &str) -> Option<[u64; COUNT]> {
    let mut numbers = [0u64; COUNT];
    let mut place = 0usize;
    for word in words.split(' ') {
        if place >= COUNT {
            return None;
        }
        numbers[place] = number_of(word)?;
        place += 1;
    }
    if place == COUNT { Some(numbers) } else { None }
}

/// The case of a line: the instruction's name, cd, c1, c2 and the immediate, the places of code,
/// the granules of RAM, PCC, the value of c1 and that of c2, and a granule's number and value.
pub fn case_of(line: &str) -> Option<Case> {
    let (name, words) = line.split_once(' ')?;
    let mnemonic = mnemonic_of(name.as_bytes())?;
    let n = numbers_of(words)?;
    Some(Case {
        mnemonic,
        operands: Operands {
            cd: n[0],
            c1: n[1],
            c2: n[2],
            number: n[3],
        },
        code: n[4],
        granules: n[5],
        pcc: value(n[6], n[7], n[8]),
        first: value(n[9], n[10], n[11]),
        second: value(n[12], n[13], n[14]),
        place: n[15],
        granule: value(n[16], n[17], n[18]),
    })
}
