//! A cable: both ends of each connection in one process, over which transmissions go down to the
//! terminals or up from one of them.

ghost use Rattle.std.specs.Prelude.{◌≡◌, ◌<◌, ◌≤◌, ℕ, length, None, Some, Err, OnOk, OnErr, IfErr};
ghost use Rattle.std.specs.Prelude.{IfSome, IsErrOf, Any, slice_get};
ghost use Rattle.std.specs.List.{AllZip};
ghost use Rattle.bsc_carrier.specs.Record.{IsCarried};
ghost use Rattle.bsc_carrier.specs.Faults.{IsDevice};
ghost use Rattle.bsc_carrier.specs.Front.{IsPartial, HasWrongLength};
ghost use Rattle.bsc_carrier.specs.Cable.{Takes, Gives, AnswersFor, ChangesAt, BeginsWith};
ghost use Rattle.bsc_carrier.specs.Cable.{BeginsOther, Explains};
ghost use Rattle.std.specs.Result.{result_err};

use crate::error::{CarrierError, Octets};
use crate::limits::MAX_CONNECTIONS;
use crate::record::{read_record, write_record};
use std::alloc::{Allocator, Global};
use std::io::{Read, Write};
use std::marker::Model;

/// Both ends of 1 to 64 connections, one connection for each terminal. After an error every later
/// call returns that error and uses no stream.
#[derive(Drop)]
pub struct Cable<S, A: Allocator = Global> {
    control_ends: Vec<S, A>,
    terminal_ends: Vec<S, A>,
    // The first error.
    fault: Option<CarrierError>,
}

impl<S, A: Allocator> Model for Cable<S, A> {
    ghost use Rattle.bsc_carrier.specs.Cable.{CableValue};

    ghost Value = { CableValue S };

    ghost use Rattle.std.specs.Prelude.{◌≡◌, ◌≤◌, length};
    ghost use Rattle.bsc_carrier.specs.declared.limits.TheConstants.{MAX_CONNECTIONS};

    ghost view = { λ c. record {
      control_ends = c.control_ends.items;
      terminal_ends = c.terminal_ends.items;
      fault = c.fault;
    } };

    ghost invariant = { λ c. (length c.control_ends.items ≡ length c.terminal_ends.items)
        × (1 ≤ length c.control_ends.items) × (length c.control_ends.items ≤ MAX_CONNECTIONS) };
}

/// Returns the first error, if there was one.
fn pass_error(fault: Option<CarrierError>) -> Result<(), CarrierError>
    ensures { result_err result ≡ fault }
{
    match fault {
        Some(error) => Err(error),
        None => Ok(()),
    }
}

/// Reads one record. Fails with `Short` also if the input ends before the record begins.
fn expect_record<S: Read>(end: &mut S, octets: &mut Octets) -> Result<(), CarrierError>
    ensures read { OnOk result (Gives S.remaining octets.new.items end.old end.new) }
    ensures carried { OnOk result (IsCarried octets.new.items) }
    ensures kept { OnErr result (octets.new.items ≡ octets.old.items) }
    ensures exact { AnswersFor result (S.remaining end.old) }
{
    if read_record(end, octets)? {
        Ok(())
    } else {
        Err(CarrierError::Short)
    }
}

/// Writes a record at the near end at this place, and reads one at the far end there; returns the
/// first error, if there was one, and uses no end.
fn carry_at<S: Read + Write>(
    fault: Option<CarrierError>,
    near: &mut [S],
    far: &mut [S],
    place: usize,
    octets: &[u8],
    heard: &mut Octets,
) -> Result<(), CarrierError>
    requires near_there { place < length near.old }
    requires far_there { place < length far.old }
    requires carried { IsCarried octets.now }
    ensures wrote { ChangesAt place (λ before after.
        OnOk result (Takes S.contents octets.now before after)) near.old near.new }
    ensures read { ChangesAt place (λ before after.
        OnOk result (Gives S.remaining heard.new.items before after)) far.old far.new }
    ensures carried { OnOk result (IsCarried heard.new.items) }
    ensures kept { OnErr result (heard.new.items ≡ heard.old.items) }
    ensures exact { (end : S) → slice_get far.old place ≡ Some end
        → fault ≡ None → AnswersFor result (S.remaining end) }
    ensures first_error { (e : CarrierError) → fault ≡ Some e
        → (result ≡ Err e) × (near.new ≡ near.old) × (far.new ≡ far.old) }
{
    pass_error(fault)?;
    write_record(&mut near[place], octets)?;
    expect_record(&mut far[place], heard)
}

/// Writes a record at every end.
fn write_each<S: Write>(ends: &mut [S], octets: &[u8]) -> Result<(), CarrierError>
    requires { IsCarried octets.now }
    ensures wrote { OnOk result (AllZip (Takes S.contents octets.now) ends.old ends.new) }
    ensures err { IfErr result IsDevice }
{
    'ends: for end in ends.iter_mut() {
        write_record(end, octets)?;
    }
    Ok(())
}

/// Reads a record at every end. Fails with `Unequal` unless each carries these octets.
fn expect_same<S: Read>(ends: &mut [S], octets: &[u8]) -> Result<(), CarrierError>
    ensures read { OnOk result (AllZip (Gives S.remaining octets.now) ends.old ends.new) }
    ensures wrong { IsErrOf result CarrierError.Length
        → Any (λ end. IfSome (S.remaining end) HasWrongLength) ends.old }
    ensures short { IsErrOf result CarrierError.Short
        → Any (λ end. IfSome (S.remaining end) IsPartial) ends.old }
    ensures unequal { IsErrOf result CarrierError.Unequal
        → BeginsOther S.remaining octets.now ends.old }
{
    let mut other = Octets::new();
    'ends: for end in ends.iter_mut() {
        expect_record(end, &mut other)?;
        if other.as_slice() != octets {
            return Err(CarrierError::Unequal);
        }
    }
    Ok(())
}

/// Reads a record at every end. Fails with `Unequal` unless all carry the same octets.
fn read_same<S: Read>(ends: &mut [S], heard: &mut Octets) -> Result<(), CarrierError>
    requires { 1 ≤ length ends.old }
    ensures read { OnOk result (AllZip (Gives S.remaining heard.new.items) ends.old ends.new) }
    ensures carried { OnOk result (IsCarried heard.new.items) }
    ensures kept { OnErr result (heard.new.items ≡ heard.old.items) }
    ensures why { IfErr result (λ e. Explains S.remaining e ends.old) }
{
    let mut first = Octets::new();
    expect_record(&mut ends[0], &mut first)?;
    expect_same(&mut ends[1..], &first)?;
    std::mem::swap(heard, &mut first);
    Ok(())
}

/// Writes a record at every near end, and reads one at every far end.
fn carry_down<S: Read + Write>(
    near: &mut [S],
    far: &mut [S],
    octets: &[u8],
    heard: &mut Octets,
) -> Result<(), CarrierError>
    requires there { 1 ≤ length far.old }
    requires carried { IsCarried octets.now }
    ensures wrote { OnOk result (AllZip (Takes S.contents octets.now) near.old near.new) }
    ensures read { OnOk result (AllZip (Gives S.remaining heard.new.items) far.old far.new) }
    ensures carried { OnOk result (IsCarried heard.new.items) }
    ensures kept { OnErr result (heard.new.items ≡ heard.old.items) }
    ensures why { IfErr result (λ e. Explains S.remaining e far.old) }
{
    write_each(near, octets)?;
    read_same(far, heard)
}

impl<S: Read + Write + Drop, A: Allocator> Cable<S, A> {
    /// Creates a cable from the two ends of each connection, in the order of the terminals. Both
    /// lists must have the same length, 1 to 64.
    pub fn new(control_ends: Vec<S, A>, terminal_ends: Vec<S, A>) -> Cable<S, A>
        requires paired { length control_ends.items ≡ length terminal_ends.items }
        requires least { 1 ≤ length control_ends.items }
        requires most { length control_ends.items ≤ MAX_CONNECTIONS }
        ensures control_ends { result.control_ends ≡ control_ends.items }
        ensures terminal_ends { result.terminal_ends ≡ terminal_ends.items }
        ensures fault { result.fault ≡ None }
    {
        Cable {
            control_ends,
            terminal_ends,
            fault: None,
        }
    }

    /// Returns the number of terminals that have a connection, 1 to 64.
    pub fn terminals(&self) -> usize
        ensures { result ≡ length self.now.terminal_ends }
    {
        self.terminal_ends.len()
    }

    /// Writes a record of 1 to 2,048 octets at the end of this terminal, and reads one at the
    /// control station's end of the same connection; no other end is used. There must be such a
    /// terminal. On success `heard` has the octets that arrived; after an error it is unchanged.
    /// Fails with `Device` if a read or a write fails, with `Length` at a wrong length, and with
    /// `Short` if the input ends before the record does.
    pub fn up(
        &mut self,
        terminal: usize,
        octets: &[u8],
        heard: &mut Octets,
    ) -> Result<(), CarrierError>
        requires there { terminal < length self.old.terminal_ends }
        requires carried { IsCarried octets.now }
        ensures wrote { ChangesAt terminal (λ before after.
            OnOk result (Takes S.contents octets.now before after))
            self.old.terminal_ends self.new.terminal_ends }
        ensures read { ChangesAt terminal (λ before after.
            OnOk result (Gives S.remaining heard.new.items before after))
            self.old.control_ends self.new.control_ends }
        ensures carried { OnOk result (IsCarried heard.new.items) }
        ensures kept { OnErr result (heard.new.items ≡ heard.old.items) }
        ensures count { length self.new.terminal_ends ≡ length self.old.terminal_ends }

        // Without an earlier error each result is returned exactly when it is due; after an error
        // that error is returned.
        ensures exact { (end : S) → slice_get self.old.control_ends terminal ≡ Some end
            → self.old.fault ≡ None → AnswersFor result (S.remaining end) }
        ensures first_error { (e : CarrierError) → self.old.fault ≡ Some e
            → (result ≡ Err e) × (self.new ≡ self.old) }
        ensures fault { self.new.fault ≡ result_err result }
    {
        let near = self.terminal_ends.as_mut_slice();
        let far = self.control_ends.as_mut_slice();
        let result = carry_at(self.fault, near, far, terminal, octets, heard);
        self.fault = result.err();
        result
    }

    /// Writes a record at the control station's end of this terminal's connection, and reads one at
    /// the terminal's end. The conditions and errors are those of `up`.
    pub fn down_to(
        &mut self,
        terminal: usize,
        octets: &[u8],
        heard: &mut Octets,
    ) -> Result<(), CarrierError>
        requires there { terminal < length self.old.terminal_ends }
        requires carried { IsCarried octets.now }
        ensures wrote { ChangesAt terminal (λ before after.
            OnOk result (Takes S.contents octets.now before after))
            self.old.control_ends self.new.control_ends }
        ensures read { ChangesAt terminal (λ before after.
            OnOk result (Gives S.remaining heard.new.items before after))
            self.old.terminal_ends self.new.terminal_ends }
        ensures carried { OnOk result (IsCarried heard.new.items) }
        ensures kept { OnErr result (heard.new.items ≡ heard.old.items) }
        ensures count { length self.new.terminal_ends ≡ length self.old.terminal_ends }

        // Without an earlier error each result is returned exactly when it is due; after an error
        // that error is returned.
        ensures exact { (end : S) → slice_get self.old.terminal_ends terminal ≡ Some end
            → self.old.fault ≡ None → AnswersFor result (S.remaining end) }
        ensures first_error { (e : CarrierError) → self.old.fault ≡ Some e
            → (result ≡ Err e) × (self.new ≡ self.old) }
        ensures fault { self.new.fault ≡ result_err result }
    {
        let near = self.control_ends.as_mut_slice();
        let far = self.terminal_ends.as_mut_slice();
        let result = carry_at(self.fault, near, far, terminal, octets, heard);
        self.fault = result.err();
        result
    }

    /// Writes a record of 1 to 2,048 octets at the control station's end of every connection, and
    /// reads one at the end of every terminal. On success `heard` has the octets that arrived;
    /// after an error it is unchanged. Fails with `Device`, `Length` and `Short` as `up` does, and
    /// with `Unequal` if two ends give different octets.
    pub fn down(&mut self, octets: &[u8], heard: &mut Octets) -> Result<(), CarrierError>
        requires { IsCarried octets.now }
        ensures wrote { OnOk result (AllZip (Takes S.contents octets.now)
            self.old.control_ends self.new.control_ends) }
        ensures read { OnOk result (AllZip (Gives S.remaining heard.new.items)
            self.old.terminal_ends self.new.terminal_ends) }
        ensures carried { OnOk result (IsCarried heard.new.items) }
        ensures kept { OnErr result (heard.new.items ≡ heard.old.items) }
        ensures control_count { length self.new.control_ends ≡ length self.old.control_ends }
        ensures terminal_count { length self.new.terminal_ends ≡ length self.old.terminal_ends }

        // Without an earlier error each error has its cause; after an error that error is returned.
        ensures why { self.old.fault ≡ None
            → IfErr result (λ e. Explains S.remaining e self.old.terminal_ends) }
        ensures first_error { (e : CarrierError) → self.old.fault ≡ Some e
            → (result ≡ Err e) × (self.new ≡ self.old) }
        ensures fault { self.new.fault ≡ result_err result }
    {
        pass_error(self.fault)?;
        let result = carry_down(
            self.control_ends.as_mut_slice(),
            self.terminal_ends.as_mut_slice(),
            octets,
            heard,
        );
        self.fault = result.err();
        result
    }
}
