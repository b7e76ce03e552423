//! Rows that came once and again, and a table that grew many times.

ghost use Rattle.std.specs.Prelude.{◌≡◌};

use interner::Interner;
use std::alloc::AllocError;
use std::test::Fail;

/// The numbers that [1, 2], [2, 1] and [1, 2] get.
fn insert_pairs(rows: &mut Interner) -> Result<[u32; 3], AllocError>
    requires { rows.old.width ≡ 2 }
{
    let first = rows.insert(&[1, 2])?;
    let second = rows.insert(&[2, 1])?;
    let third = rows.insert(&[1, 2])?;
    Ok([first, second, third])
}

/// Whether 1000 rows, of which no two are the same, are numbered in their order.
fn insert_many(rows: &mut Interner) -> Result<bool, AllocError>
    requires { rows.old.width ≡ 3 }
    ensures { rows.new.width ≡ 3 }
{
    for n in 0..1000u32 {
        if rows.insert(&[n % 10, n / 10 % 10, n / 100])? != n {
            return Ok(false);
        }
    }
    Ok(true)
}

#[test]
fn rows_are_kept_once(rt: HostRuntime) -> Result<(), Fail> {
    let mut rows = Interner::new(rt.alloc(), 2);
    assert!(rt; rows.find(&[1, 2]).is_none());
    assert_eq!(rt; insert_pairs(&mut rows)?, [0, 1, 0]);
    assert_eq!(rt; (rows.len(), rows.width()), (2, 2));
    assert_eq!(rt;
        [rows.find(&[2, 1]), rows.find(&[2, 2]), rows.find(&[2])],
        [Some(1), None, None]
    );
    assert!(rt; rows.row(1) == Some([2, 1].as_slice()));
    assert!(rt; rows.row(2).is_none());
    let mut none = Interner::new(rt.alloc(), 0);
    assert_eq!(rt;
        (none.insert(&[])?, none.insert(&[])?, none.len()),
        (0, 0, 1)
    );
    let mut many = Interner::new(rt.alloc(), 3);
    assert!(rt; insert_many(&mut many)?);
    assert!(rt; insert_many(&mut many)?);
    assert_eq!(rt; many.len(), 1000);
    Ok(())
}
