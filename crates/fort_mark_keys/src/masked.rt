//! Labels under a mask.
ghost use Rattle.std.specs.Prelude.{◌≡◌, [], length, OnOk};
ghost use Rattle.fort_mark_keys.specs.MaskedWords.{masked};

use std::alloc::AllocError;

/// Writes the words of a label under a mask.
pub(crate) fn write_masked(
    mask: &[u64],
    label: &[u64],
    words: &mut Vec<u64>,
) -> Result<(), AllocError>
    requires width { length mask.now ≡ length label.now }
    requires empty { words.old.items ≡ [] }
    ensures { OnOk result (words.new.items ≡ masked mask.now label.now) }
{
    for k in 0..mask.len() {
        words.push(mask[k] & label[k])?;
    }
    Ok(())
}
