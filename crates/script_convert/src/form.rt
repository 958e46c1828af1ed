//! A script in the other form.
ghost use Rattle.std.specs.Prelude.{◌≡◌, ◌≤◌, ℕ, List, [], Option, Bool, IsTrue, IsErrOf};
ghost use Rattle.heap_io.specs.Causes.{Rose};
ghost use Rattle.text_model.specs.Units.{Said};
ghost use Rattle.script_convert.specs.Reader.{HandedOut, MayRead, is_form};
ghost use Rattle.script_convert.specs.Convert.{Converts, ConvertsScript, ConvertsUnits, end_of_unit};

use crate::end::ConvertEnd;
use crate::reader::{ScriptReader, UnitEnd};
use crate::write::{write_all, write_unit};
use heap_io::{Failed, Files, Sink};
use script_text::{Bytes, LONGEST_LINE};
use std::alloc::Global;

/// The bytes with which a binary script begins.
const MARK: [u8; 4] = *b"PGH2";

/// The record with which it ends.
const END: [u8; 1] = [0];

/// Writes the items of the file of a name in the other form: of a text the mark, the records and the end record; of a binary
/// script the lines. The mark, each item and the end record are one piece each. Its memory does not grow with the script. (This
/// project's own.)
pub fn convert<F: Files, K: Sink>(
    alloc: Global,
    name: &[u8],
    files: &mut F,
    out: &mut K,
) -> Result<(), ConvertEnd>
    requires { IsTrue (F.may_begin files.old name.now) }
    ensures converts { Converts (F.bytes files.old name.now) (F.begun files.old) (F.begun files.new) (F.rest files.new) (K.written out.old) (K.written out.new) result }
    ensures read { IsErrOf result ConvertEnd.ReadFault → Rose (F.faults files.old) (F.faults files.new) }
    ensures write { IsErrOf result ConvertEnd.WriteFault → Rose (K.faults out.old) (K.faults out.new) }
    ensures read_later { F.faults files.old ≤ F.faults files.new }
    ensures write_later { K.faults out.old ≤ K.faults out.new }
{
    let Ok(()) = files.begin_file(name) else {
        return Err(ConvertEnd::ReadFault);
    };
    let bytes = Bytes::new(alloc)?;
    let mut piece = Vec::new(alloc);
    match ScriptReader::over(bytes, files) {
        Ok(mut reader) => convert_script(&mut reader, files, &mut piece, out),
        Err(Failed) => Err(ConvertEnd::ReadFault),
    }
}

/// Writes a script in the other form.
fn convert_script<F: Files, K: Sink>(
    reader: &mut ScriptReader,
    files: &mut F,
    piece: &mut Vec<u8>,
    out: &mut K,
) -> Result<(), ConvertEnd>
    requires { MayRead reader.old (F.rest files.old) 0 }
    ensures ends { (script : Option (List ℕ)) → HandedOut script (F.rest files.old) reader.old []
        → ConvertsScript script (F.rest files.new) (K.written out.old) (K.written out.new) result }
    ensures read { IsErrOf result ConvertEnd.ReadFault → Rose (F.faults files.old) (F.faults files.new) }
    ensures write { IsErrOf result ConvertEnd.WriteFault → Rose (K.faults out.old) (K.faults out.new) }
    ensures read_later { F.faults files.old ≤ F.faults files.new }
    ensures write_later { K.faults out.old ≤ K.faults out.new }
{
    if reader.is_binary() {
        return convert_units(true, reader, files, piece, out);
    }
    match write_all(out, &MARK) {
        Ok(()) => {}
        Err(Failed) => return Err(ConvertEnd::WriteFault),
    }
    match convert_units(false, reader, files, piece, out) {
        Ok(()) => {}
        Err(end) => return Err(end),
    }
    match write_all(out, &END) {
        Ok(()) => Ok(()),
        Err(Failed) => Err(ConvertEnd::WriteFault),
    }
}

/// Writes the items of a script one after another: as lines, or as records.
fn convert_units<F: Files, K: Sink>(
    lines: bool,
    reader: &mut ScriptReader,
    files: &mut F,
    piece: &mut Vec<u8>,
    out: &mut K,
) -> Result<(), ConvertEnd>
    requires { MayRead reader.old (F.rest files.old) 0 }
    ensures ends { (script : Option (List ℕ)) → HandedOut script (F.rest files.old) reader.old []
        → ConvertsUnits lines script (F.rest files.new) (K.written out.old) (K.written out.new) result }
    ensures read { IsErrOf result ConvertEnd.ReadFault → Rose (F.faults files.old) (F.faults files.new) }
    ensures write { IsErrOf result ConvertEnd.WriteFault → Rose (K.faults out.old) (K.faults out.new) }
    ensures read_later { F.faults files.old ≤ F.faults files.new }
    ensures write_later { K.faults out.old ≤ K.faults out.new }
{
    let mut line = [0; LONGEST_LINE];
    let mut number = 0;
    'units: loop {
        match reader.next(number, files, &mut line) {
            Ok(Some(item)) => {
                number += 1;
                match write_unit(lines, &item, piece, out) {
                    Ok(()) => {}
                    Err(end) => return Err(end),
                }
            }
            Ok(None) => return Ok(()),
            Err(end) => return Err(end_of_unit(end)),
        }
    }
}

/// How a conversion stops where a unit is not read.
fn end_of_unit(end: UnitEnd) -> ConvertEnd
    ensures { result ≡ end_of_unit end }
{
    match end {
        UnitEnd::Refused { unit, reason } => ConvertEnd::Malformed { unit, reason },
        UnitEnd::ReadFault => ConvertEnd::ReadFault,
    }
}
