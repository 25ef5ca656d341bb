//! The messages of errors that no other test prints.

use bsc_bid::{ReleaseError, SettingError, TerminalError};
use bsc_block::{FormatError, RecordError};
use bsc_carrier::{CarrierError, DeviceFault};
use bsc_config::ConfigError;
use bsc_config::script::ScriptError;
use bsc_connections::LiveError;
use bsc_control::SetupError;
use bsc_frame::AddressError;
use bsc_text::{InputError, PrintError, Unreadable};
use bsc_trust::NetworkError;
use std::io::ErrorKind;
use std::test::Fail;

#[test]
fn settings_addresses_and_setups(rt: HostRuntime) -> Result<(), Fail> {
    let texts = format!(in rt.alloc();
        "{}\n{}\n{}\n{}\n{}\n{}\n{}\n{}\n{}\n{}\n{}\n{}\n{}\n{}\n{}\n{}\n{}\n{}\n",
        NetworkError::NoAddress,
        NetworkError::NoBits,
        SettingError::Full,
        SettingError::BlockChars,
        SettingError::Tries,
        SettingError::Waits,
        AddressError::Empty,
        AddressError::TooLong,
        AddressError::BadChar(3),
        TerminalError::Count,
        SetupError::NoTerminal,
        SetupError::TooMany,
        SetupError::SameAddress(0, 5),
        SetupError::EmptyPollList,
        SetupError::PollList(255),
        SetupError::Memory,
        FormatError::Full,
        FormatError::BlockChars,
    )?;
    assert_eq!(rt;
        texts.as_str(),
        "not an IP address\nnot a number of bits of the address\n\
        the full length is not 1 to 144\nthe characters of a block are not 146 to 400\n\
        the tries are not 1 to 15\nthe waits are not 1 to 255\nthe address is empty\n\
        the address has more than seven characters\nwrong character at 3\n\
        a terminal has one to four selection addresses\n\
        no terminal\ntoo many terminals\naddresses 0 and 5 are the same\npoll list is empty\n\
        poll list entry 255 is wrong\nout of memory\n\
        the full length of a record is not 1 to 144\n\
        the characters of a block are not 146 to 400\n"
    );
    Ok(())
}

#[test]
fn records_and_carriers(rt: HostRuntime) -> Result<(), Fail> {
    let texts = format!(in rt.alloc();
        "{}\n{}\n{}\n{}\n{}\n{}\n{}\n{}\n{}\n{}\n{}\n{}\n{}\n",
        RecordError::TooLong,
        RecordError::NotText(80),
        ReleaseError::NotInDoubt,
        ReleaseError::CountMismatch,
        CarrierError::Length,
        CarrierError::Short,
        CarrierError::Device {
            why: DeviceFault::of(ErrorKind::ConnectionReset),
        },
        DeviceFault::of(ErrorKind::ConnectionAborted),
        DeviceFault::of(ErrorKind::BrokenPipe),
        DeviceFault::of(ErrorKind::TimedOut),
        DeviceFault::of(ErrorKind::NetworkUnreachable),
        DeviceFault::of(ErrorKind::WriteZero),
        CarrierError::Unequal,
    )?;
    assert_eq!(rt;
        texts.as_str(),
        "record too long\nwrong character at 80\nnot in doubt\ncount mismatch\n\
        the length of a record is wrong\nthe input ended within a record\n\
        connection reset by peer\nconnection aborted\nbroken pipe\ntimed out\n\
        the peer cannot be reached\na read or a write failed\n\
        two far ends gave different octets\n"
    );
    Ok(())
}

#[test]
fn inputs_outputs_and_waits(rt: HostRuntime) -> Result<(), Fail> {
    let texts = format!(in rt.alloc();
        "{}\n{}\n{}\n{}\n{}\n{}\n{}\n{}\n{}\n{}\n{}\n{}\n",
        InputError::TooLong,
        InputError::Device {
            why: Unreadable::ReadFault,
        },
        InputError::Memory,
        PrintError::Output,
        PrintError::Memory,
        LiveError::Wait,
        LiveError::Count,
        LiveError::Output,
        LiveError::Memory,
        ScriptError::NotAnEvent { line: 9 },
        ScriptError::Memory,
        ConfigError::Memory,
    )?;
    assert_eq!(rt;
        texts.as_str(),
        "input too long\ninput fault\nout of memory\noutput fault\nout of memory\n\
        cannot wait for the sockets\ntoo much happened\noutput fault\nout of memory\n\
        script line 9: not an event\nout of memory\nout of memory\n"
    );
    Ok(())
}
