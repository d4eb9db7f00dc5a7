//! A file that is read whole.
ghost use Rattle.std.specs.Prelude.{◌≡◌, Err, Some};
ghost use Rattle.sv_view.specs.Files.{OfFile};
ghost use Rattle.sv_cli.specs.Devices.{HasRead};
ghost use Rattle.sv_cli.specs.Reading.{IsReadWhole};

use std::alloc::Global;
use sv_base::{ReadAll, Source, read_all};

/// Reads the file of the name whole, of at most `limit` bytes, or says why it could not.
pub fn read_file<S: Source>(
    alloc: Global,
    name: &str,
    src: &mut S,
    limit: u64,
) -> Result<Vec<u8>, ReadAll>
    ensures read { OfFile (S.held src.old name.now) (S.left src.new) (λ file taken.
        IsReadWhole limit file taken result) }
    ensures source { HasRead (Some name.now) (src.new ≡ src.old) (S.sure src.old)
        (S.begins src.old) (S.begins src.new) (S.faults src.old) (S.faults src.new)
        (result ≡ Err ReadAll.Failed) }
{
    let Ok(()) = src.begin(name) else {
        return Err(ReadAll::Failed);
    };
    read_all(alloc, src, limit)
}
