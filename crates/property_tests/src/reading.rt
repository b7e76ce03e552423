//! Which lines of a listing are properties, and where the others are at fault.

ghost use Rattle.std.specs.Prelude.{◌≡◌, Ok};
ghost use Rattle.listings.specs.Meaning.{listing_meaning};

use cheri_model::Image;
use explore_properties::{Claim, Properties, PropertyFault, When, read_properties};
use grammar::labels::Labels;
use listing_labels::labels_of;
use listing_maps::Names;
use listings::read_listing;
use std::alloc::Global;
use std::process::Abort;
use std::test::Fail;

/// What comes after the lines that are read: two harts that count to 1.
const LISTING: &str = ".ram 16\n\
.hart 0x10000000 8 0x10000000 execute\n\
.hart 0x10000000 8 0x10000000 execute\n\
start:\n\
addi c5, c0, 1\n\
end:\n\
ecall\n\
";

/// Lines that are no properties, each with the line and the byte of the first fault.
const FAULTS: &[(&str, usize, usize)] = &[
    ("# never x", 0, 0),
    ("#!", 1, 2),
    ("#!never 0 is halted", 1, 2),
    ("\n  #! nothing", 2, 5),
    ("#! never", 1, 8),
    ("#! never x", 1, 9),
    ("#! never 0 is", 1, 13),
    ("#! ends well", 1, 8),
    ("#! ends fairly now", 1, 8),
    ("#! sweep 2,1\n#! ends", 1, 9),
    ("#! sweep", 1, 8),
    ("#! sweep 0,1", 0, 0),
    ("#! sweep 0,1,2", 1, 9),
    ("#! Ends", 1, 3),
    ("#! ends\n#! never two  harts at @1", 2, 13),
    ("#!  ends", 1, 3),
    ("#! fairly", 1, 3),
    ("#! finally", 1, 10),
    ("#! always (0 is halted", 1, 22),
    ("#! never 0 is halted)", 1, 20),
    ("#! never 0 in @2..@2", 1, 14),
    ("#! never 2 is halted", 1, 9),
    ("#! never h is halted", 1, 9),
    ("#! never 0 at nowhere", 1, 14),
    ("\t#! sometimes 0.c32 = 1", 1, 14),
    ("#! sweep 0,18446744073709551617", 1, 9),
    ("#! sweep 0, 1", 1, 9),
    ("#!\tends", 1, 2),
    ("#! ends\n#! never 0 is halted and", 2, 24),
    ("#! never  ", 1, 8),
    ("#!  \t", 1, 2),
];

/// Lines of every kind.
const LINES: &str = "  #! never two harts in start..end \t\n\
#! always 0.c5 <= 1\n\
# a comment\n\
#! sweep 16,0x20\n\
#! sometimes 0 at end\n\
\t#! finally all harts are halted\n\
#! ends\n\
#! ends fairly\t \n\
";

/// The line, the text and the kind of the properties among them.
const PROPERTIES: &[(usize, &str, &str)] = &[
    (1, "never two harts in start..end", "never"),
    (2, "always 0.c5 <= 1", "always"),
    (5, "sometimes 0 at end", "sometimes"),
    (6, "finally all harts are halted", "finally"),
    (7, "ends", "ends"),
    (8, "ends fairly", "ends fairly"),
];

/// The bytes of some lines and of the listing after them.
fn with_listing(alloc: Global, lines: &str, end: &str) -> Result<Vec<u8>, Fail> {
    let mut text = Vec::new(alloc);
    text.extend_from_slice(lines.as_bytes())?;
    text.extend_from_slice(end.as_bytes())?;
    text.extend_from_slice(LISTING.as_bytes())?;
    Ok(text)
}

/// The properties of a listing without a map.
fn read_unmapped<'t>(
    alloc: Global,
    labels: &Labels<'_>,
    image: &Image,
    text: &'t [u8],
) -> Result<Properties<'t>, PropertyFault>
    requires { listing_meaning text.now ≡ Ok image.now }
{
    let names = Names {
        labels,
        sources: None,
    };
    read_properties(alloc, &names, image, text)
}

/// Where the first fault of a listing's properties is: its line and byte, if it has one.
fn fault_of(alloc: Global, text: &[u8]) -> Result<Option<(usize, usize)>, Fail> {
    let image = read_listing(alloc, text)?;
    let labels = labels_of(alloc, &image, text)?;
    match read_unmapped(alloc, &labels, &image, text) {
        Ok(_) => Ok(None),
        Err(PropertyFault::Place(place)) => Ok(Some((place.line, place.byte))),
        Err(PropertyFault::NoMemory) => Ok(None),
    }
}

/// Each fault is at its line and byte.
#[test]
fn faults_have_places(rt: HostRuntime) -> Result<(), Fail> {
    for (lines, line, byte) in FAULTS {
        let text = with_listing(rt.alloc(), lines, "\n")?;
        let found = fault_of(rt.alloc(), text.as_slice())?;
        assert!(rt;
            found == Some((*line, *byte)),
            "the fault of {lines:?} is {found:?}"
        );
    }
    Ok(())
}

/// So many lines that are the same, and then others.
fn repeated(alloc: Global, count: usize, line: &str, end: &str) -> Result<Vec<u8>, Fail> {
    let mut lines = String::new(alloc);
    for _ in 0..count {
        lines.push_str(line)?;
    }
    with_listing(alloc, lines.as_str(), end)
}

/// There are at most 64 properties and 8 sweeps.
#[test]
fn properties_are_few(rt: HostRuntime) -> Result<(), Fail> {
    let rows: [(usize, &str, &str, Option<(usize, usize)>); 5] = [
        (64, "#! ends\n", "", None),
        (64, "#! ends\n", "#! ends\n", Some((65, 0))),
        (64, "#! ends\n", "#! never x\n", Some((65, 9))),
        (8, "#! sweep 0,1\n", "#! ends\n", None),
        (8, "#! sweep 0,1\n", "#! sweep 0,1\n", Some((9, 9))),
    ];
    for (count, line, end, wanted) in rows {
        let text = repeated(rt.alloc(), count, line, end)?;
        let found = fault_of(rt.alloc(), text.as_slice())?;
        assert!(rt;
            found == wanted,
            "{count} of {line:?} and {end:?}: {found:?}"
        );
    }
    Ok(())
}

/// The word of a claim.
fn word_of(claim: &Claim) -> &'static str {
    match claim {
        Claim::Holds(When::Never, _) => "never",
        Claim::Holds(When::Always, _) => "always",
        Claim::Holds(When::Sometimes, _) => "sometimes",
        Claim::Holds(When::Finally, _) => "finally",
        Claim::Ends => "ends",
        Claim::EndsFairly => "ends fairly",
    }
}

/// Whether the properties are these.
fn are_known(read: &Properties<'_>) -> bool {
    let found = read.properties();
    if found.len() != PROPERTIES.len() {
        return false;
    }
    for place in 0..found.len().min(PROPERTIES.len()) {
        let (line, text, word) = PROPERTIES[place];
        let one = &found[place];
        if one.line() != line || one.text() != text || word_of(one.claim()) != word {
            return false;
        }
    }
    true
}

/// Each line is read with its text, and sweeps are read beside them.
#[test]
fn properties_are_read(rt: HostRuntime) -> Result<(), Fail> {
    let alloc = rt.alloc();
    let text = with_listing(alloc, LINES, "")?;
    let image = read_listing(alloc, text.as_slice())?;
    let labels = labels_of(alloc, &image, text.as_slice())?;
    let Ok(read) = read_unmapped(alloc, &labels, &image, text.as_slice()) else {
        return Err(Fail::from("the lines are at fault"));
    };
    assert!(rt; are_known(&read), "the properties are others");
    let sweeps = read.sweeps();
    assert!(rt; sweeps.len() == 1, "there are {} sweeps", sweeps.len());
    assert!(rt;
        sweeps[0].lo == 16 && sweeps[0].hi == 32,
        "the sweep is another"
    );
    Ok(())
}
