//! Tables by name.

ghost use Rattle.std.specs.Prelude.{◌≡◌};
ghost use Rattle.cheri_model.specs.instructions.Tables.{found_at, rows_of};

/// The value of the first row with this name.
#[tactic(auto, unfolding(crate::specs::instructions::Tables::found_at))]
pub fn found_at<T: Copy + Drop>(table: &[(&str, T)], token: &[u8]) -> Option<T>
    ensures { result ≡ found_at (rows_of table.now) token.now }
{
    for (name, value) in table {
        if name.as_bytes() == token {
            return Some(*value);
        }
    }
    None
}
