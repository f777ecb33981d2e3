//! Rows of numbers, written one after another.
ghost use Rattle.std.specs.Prelude.{◌≡◌, ◌++◌, ◌∷◌, [], IfOk, OnOk};
ghost use Rattle.jc_snapshot.specs.Rows.{framed, flat};

use std::alloc::{AllocError, Global};

/// Appends the length of a row, and then the row. An `Err` says that an allocation failed.
pub(crate) fn push_row(words: &mut Vec<u64>, row: &[u64]) -> Result<(), AllocError>
    ensures { OnOk result (words.new.items ≡ words.old.items ++ framed row.now) }
{
    words.push(row.len() as u64)?;
    words.extend_from_slice(row)?;
    Ok(())
}

/// Three rows.
pub(crate) fn three_rows(
    alloc: Global,
    first: &[u64],
    second: &[u64],
    third: &[u64],
) -> Result<Vec<u64>, AllocError>
    ensures { IfOk result (λ words. words.items ≡ flat (first.now ∷ second.now ∷ third.now ∷ [])) }
{
    let mut words = Vec::new(alloc);
    push_row(&mut words, first)?;
    push_row(&mut words, second)?;
    push_row(&mut words, third)?;
    Ok(words)
}

/// Five rows.
pub(crate) fn five_rows(
    alloc: Global,
    first: &[u64],
    second: &[u64],
    third: &[u64],
    fourth: &[u64],
    fifth: &[u64],
) -> Result<Vec<u64>, AllocError>
    ensures { IfOk result (λ words. words.items
        ≡ flat (first.now ∷ second.now ∷ third.now ∷ fourth.now ∷ fifth.now ∷ [])) }
{
    let mut words = Vec::new(alloc);
    push_row(&mut words, first)?;
    push_row(&mut words, second)?;
    push_row(&mut words, third)?;
    push_row(&mut words, fourth)?;
    push_row(&mut words, fifth)?;
    Ok(words)
}
