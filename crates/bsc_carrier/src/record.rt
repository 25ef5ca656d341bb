//! Writes and reads single records, at one end of a connection.

ghost use Rattle.std.specs.Prelude.{◌≡◌, ◌≢◌, [], Ok, Err, true, false, OnOk, IfErr, OnErr};
ghost use Rattle.std.specs.Io.KnownBytes.{Appends};
ghost use Rattle.bsc_carrier.specs.Record.{socket_record, IsCarried};
ghost use Rattle.bsc_carrier.specs.Faults.{IsDevice, fault_of};
ghost use Rattle.bsc_carrier.specs.Front.{BeginsRecord, EndsWithin, HasWrongLength};
ghost use Rattle.bsc_carrier.specs.KnownOctets.{AppendsPart, ReadsRecord, IsExactly};

use crate::assembler::Assembler;
use crate::error::{CarrierError, Octets};
use crate::fault::DeviceFault;
use crate::limits::{MAX_RECORD, MAX_RECORD_OCTETS};
use arrayvec::ArrayVec;
use std::io::{ErrorKind, Read, Write};

/// Returns the error of a read or a write that failed with an error of this kind.
fn device(kind: ErrorKind) -> CarrierError
    ensures { result ≡ CarrierError.Device (fault_of kind) }
{
    CarrierError::Device {
        why: DeviceFault::of(kind),
    }
}

/// Writes all of the octets. Fails with `Device` at the first write that fails or takes no octets.
fn write_whole<W: Write>(writer: &mut W, octets: &[u8]) -> Result<(), CarrierError>
    ensures ok { OnOk result (Appends (W.contents writer.old) (W.contents writer.new) octets.now) }
    ensures part { OnErr result
        (AppendsPart (W.contents writer.old) (W.contents writer.new) octets.now) }
    ensures err { IfErr result IsDevice }
{
    let mut rest = octets;
    'writes: while !rest.is_empty() {
        match writer.write(rest) {
            Ok(0) => return Err(device(ErrorKind::WriteZero)),
            Ok(n) => rest = &rest[n..],
            Err(error) => return Err(device(error.kind())),
        }
    }
    Ok(())
}

/// Writes a record of 1 to 2,048 octets, in at most 2,050 writes. Fails with `Device` if a write
/// fails, is interrupted, or takes no octets; only a front part of the record has then been
/// written.
pub fn write_record<W: Write>(writer: &mut W, octets: &[u8]) -> Result<(), CarrierError>
    requires { IsCarried octets.now }
    ensures ok { OnOk result
        (Appends (W.contents writer.old) (W.contents writer.new) (socket_record octets.now)) }
    ensures part { OnErr result
        (AppendsPart (W.contents writer.old) (W.contents writer.new) (socket_record octets.now)) }
    ensures err { IfErr result IsDevice }
{
    let mut record = ArrayVec::<u8, MAX_RECORD_OCTETS>::new();
    record
        .try_extend_from_slice(&(octets.len() as u16).to_be_bytes())
        .unwrap();
    record.try_extend_from_slice(octets).unwrap();
    write_whole(writer, &record)
}

/// Reads until the assembler has completed a record, and then puts its octets in `octets`.
fn assemble<R: Read>(reader: &mut R, octets: &mut Octets) -> Result<bool, CarrierError>
    ensures read { ReadsRecord (R.remaining reader.old) result octets.new.items
        (R.remaining reader.new) }
    ensures kept { result ≢ Ok true → octets.new.items ≡ octets.old.items }
{
    let mut assembler = Assembler::new();
    let mut piece = [0; MAX_RECORD];
    'reads: loop {
        let wanted = assembler.wanted();
        let count = match reader.read(&mut piece[..wanted]) {
            Ok(count) => count,
            Err(error) => return Err(device(error.kind())),
        };
        if count == 0 {
            if assembler.between() {
                return Ok(false);
            }
            return Err(CarrierError::Short);
        }
        let (_, is_complete) = assembler.feed(&piece[..count])?;
        if is_complete {
            octets.clear();
            octets.try_extend_from_slice(assembler.octets()).unwrap();
            return Ok(true);
        }
    }
}

/// Reads one record, in at most 2,050 reads. Returns true and puts the octets of the record in
/// `octets`, or returns false if the input ends before the first octet of the record. Fails with
/// `Short` if the input ends within the record, with `Length` at a wrong length, and with `Device`
/// if a read fails or is interrupted. Unless it returns true `octets` is unchanged, and what was
/// read is lost.
pub fn read_record<R: Read>(reader: &mut R, octets: &mut Octets) -> Result<bool, CarrierError>
    ensures read { ReadsRecord (R.remaining reader.old) result octets.new.items
        (R.remaining reader.new) }
    ensures kept { result ≢ Ok true → octets.new.items ≡ octets.old.items }

    // Unless a read failed, each result is returned exactly when it is due.
    ensures whole { IsExactly result (result ≡ Ok true) BeginsRecord
        (R.remaining reader.old) }
    ensures ended { IsExactly result (result ≡ Ok false) (λ stream. stream ≡ [])
        (R.remaining reader.old) }
    ensures wrong { IsExactly result (result ≡ Err CarrierError.Length) HasWrongLength
        (R.remaining reader.old) }
    ensures short { IsExactly result (result ≡ Err CarrierError.Short) EndsWithin
        (R.remaining reader.old) }
{
    assemble(reader, octets)
}
