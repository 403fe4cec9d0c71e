// The handshake, message by message.
ghost use Rattle.std.specs.Prelude.{◌≡◌, ℕ, ◌≤◌, ◌<◌, ◌++◌, true, if◌then◌else◌, [], List, length, replicate, IfOk, IfErr, OnOk, OnErr};
ghost use Rattle.std.specs.Io.KnownBytes.{Appends};
ghost use Rattle.pcm_io.specs.Faults.{Rose};
ghost use Rattle.pcm_io.specs.Giving.{AppendsPrefix};
ghost use Rattle.pcm_io.specs.Taking.{Takes};
ghost use Rattle.nbd_frames.specs.Numbers.{four};
ghost use Rattle.nbd_frames.specs.Options.{IsOption, are_known, export_bytes, info_replies, is_told, option_bytes, option_reply, replies_to};
ghost use Rattle.disk_server.specs.Messages.{behind_option};
ghost use Rattle.nbd_frames.specs.declared.handshake.Reply.TheVariants.{Ack};
ghost use Rattle.disk_server.specs.Reading.{StopsAmid};
ghost use Rattle.disk_server.specs.Endings.{NoneFollows};
ghost use Rattle.disk_server.specs.declared.phase.SessionPhase.TheVariants.{Opening, Choosing};

use crate::phase::{Ended, SessionPhase};
use crate::reading::{fill, fill_on, skip};
use crate::writing::write_both;
use nbd_frames::{
    Choice, MOST_DATA, OptionHeader, Reply, asks_info, export_bytes, info_bytes, read_flags,
    read_option, reply_front,
};
use pcm_io::{Sink, Source, WriteFault, write_all};

// Reads the flags of a client.
pub(crate) fn receive_flags<S: Source>(source: &mut S) -> Result<u32, Ended>
    ensures came { IfOk result (λ flags. (are_known flags ≡ true) × Takes (S.left source.old)
        (S.left source.new) (S.taken source.old) (S.taken source.new) (four flags)) }
    ensures none { IfErr result (λ ended. (bytes : List ℕ) × Takes (S.left source.old)
        (S.left source.new) (S.taken source.old) (S.taken source.new) bytes
        × NoneFollows ended Opening bytes (S.left source.new) (S.faults source.old)
        (S.faults source.new)) }
    ensures never_falls { S.faults source.old ≤ S.faults source.new }
{
    let mut bytes = [0; 4];
    fill(source, &mut bytes)?;
    let flags = read_flags(&bytes);
    if flags < 4 {
        Ok(flags)
    } else {
        Err(Ended::Strange)
    }
}

// An option that came, and whether its data are those of an INFO or a GO that is answered.
#[derive(Clone, Copy)]
pub(crate) struct ChosenOption {
    pub(crate) header: OptionHeader,
    pub(crate) told: bool,
}

// Reads an option's data, and says whether they are such data.
fn receive_data<S: Source>(source: &mut S, size: u32) -> Result<bool, Ended>
    ensures came { IfOk result (λ told. (bytes : List ℕ) × (length bytes ≡ size)
        × (told ≡ is_told bytes) × Takes (S.left source.old) (S.left source.new)
        (S.taken source.old) (S.taken source.new) bytes) }
    ensures short { IfErr result (λ ended. (bytes : List ℕ) × (length bytes < size)
        × Takes (S.left source.old) (S.left source.new) (S.taken source.old) (S.taken source.new)
        bytes × StopsAmid ended (S.left source.new) (S.faults source.old) (S.faults source.new)) }
    ensures never_falls { S.faults source.old ≤ S.faults source.new }
{
    let size = size as usize;
    if size > MOST_DATA {
        skip(source, size as u32)?;
        return Ok(false);
    }
    let mut data = [0; MOST_DATA];
    let front = &mut data[..size];
    fill_on(source, front)?;
    Ok(asks_info(front))
}

// Reads an option.
pub(crate) fn receive_option<S: Source>(source: &mut S, zeros: bool) -> Result<ChosenOption, Ended>
    ensures came { IfOk result (λ chosen. (bytes : List ℕ) × IsOption chosen.header
        × (length bytes ≡ chosen.header.size) × (chosen.told ≡ is_told bytes)
        × Takes (S.left source.old) (S.left source.new) (S.taken source.old) (S.taken source.new)
        (option_bytes chosen.header ++ bytes)) }
    ensures none { IfErr result (λ ended. (bytes : List ℕ) × Takes (S.left source.old)
        (S.left source.new) (S.taken source.old) (S.taken source.new) bytes
        × NoneFollows ended (Choosing zeros) bytes (S.left source.new) (S.faults source.old)
        (S.faults source.new)) }
    ensures never_falls { S.faults source.old ≤ S.faults source.new }
{
    let mut bytes = [0; 16];
    fill(source, &mut bytes)?;
    let Some(header) = read_option(&bytes) else {
        return Err(Ended::Strange);
    };
    let told = receive_data(source, header.size)?;
    Ok(ChosenOption { header, told })
}

// Writes one reply to an option.
fn say<K: Sink>(sink: &mut K, choice: Choice, reply: Reply, bytes: &[u8]) -> Result<(), WriteFault>
    requires few { length bytes.now ≤ 100 }
    ensures ok { OnOk result (Appends (K.written sink.old) (K.written sink.new)
        (option_reply choice reply bytes.now)) }
    ensures prefix { OnErr result (AppendsPrefix (K.written sink.old) (K.written sink.new)
        (option_reply choice reply bytes.now)) }
    ensures fault { OnErr result (Rose (K.faults sink.old) (K.faults sink.new)) }
    ensures never_falls { K.faults sink.old ≤ K.faults sink.new }
{
    write_both(sink, &reply_front(choice, reply, bytes.len() as u32), bytes)
}

// Writes a reply that has data, and the one that says that this is all.
fn say_all<K: Sink>(
    sink: &mut K,
    choice: Choice,
    reply: Reply,
    bytes: &[u8],
) -> Result<(), WriteFault>
    requires few { length bytes.now ≤ 100 }
    ensures ok { OnOk result (Appends (K.written sink.old) (K.written sink.new)
        (option_reply choice reply bytes.now ++ option_reply choice Ack [])) }
    ensures prefix { OnErr result (AppendsPrefix (K.written sink.old) (K.written sink.new)
        (option_reply choice reply bytes.now ++ option_reply choice Ack [])) }
    ensures fault { OnErr result (Rose (K.faults sink.old) (K.faults sink.new)) }
    ensures never_falls { K.faults sink.old ≤ K.faults sink.new }
{
    say(sink, choice, reply, bytes)?;
    say(sink, choice, Reply::Ack, &[])
}

// Tells an old client the size of the disk.
fn say_size<K: Sink>(sink: &mut K, size: u64, zeros: bool) -> Result<(), WriteFault>
    ensures ok { OnOk result (Appends (K.written sink.old) (K.written sink.new)
        (export_bytes size ++ (if zeros then replicate 124 0 else []))) }
    ensures prefix { OnErr result (AppendsPrefix (K.written sink.old) (K.written sink.new)
        (export_bytes size ++ (if zeros then replicate 124 0 else []))) }
    ensures fault { OnErr result (Rose (K.faults sink.old) (K.faults sink.new)) }
    ensures never_falls { K.faults sink.old ≤ K.faults sink.new }
{
    if zeros {
        write_both(sink, &export_bytes(size), &[0; 124])
    } else {
        write_all(sink, &export_bytes(size))
    }
}

// Tells of the disk, where the data ask for it.
fn say_info<K: Sink>(sink: &mut K, size: u64, chosen: &ChosenOption) -> Result<(), WriteFault>
    ensures ok { OnOk result ((bytes : List ℕ) → length bytes ≡ chosen.now.header.size
        → chosen.now.told ≡ is_told bytes → Appends (K.written sink.old) (K.written sink.new)
        (info_replies size chosen.now.header.choice bytes)) }
    ensures prefix { OnErr result ((bytes : List ℕ) → length bytes ≡ chosen.now.header.size
        → chosen.now.told ≡ is_told bytes → AppendsPrefix (K.written sink.old) (K.written sink.new)
        (info_replies size chosen.now.header.choice bytes)) }
    ensures fault { OnErr result (Rose (K.faults sink.old) (K.faults sink.new)) }
    ensures never_falls { K.faults sink.old ≤ K.faults sink.new }
{
    let choice = chosen.header.choice;
    if chosen.header.size as usize > MOST_DATA {
        say(sink, choice, Reply::TooBig, &[])
    } else if chosen.told {
        say_all(sink, choice, Reply::Info, &info_bytes(size))
    } else {
        say(sink, choice, Reply::Invalid, &[])
    }
}

// Answers an option of a client, of a disk of so many bytes.
pub(crate) fn answer_option<K: Sink>(
    sink: &mut K,
    size: u64,
    zeros: bool,
    chosen: &ChosenOption,
) -> Result<(), WriteFault>
    ensures ok { OnOk result ((bytes : List ℕ) → length bytes ≡ chosen.now.header.size
        → chosen.now.told ≡ is_told bytes → Appends (K.written sink.old) (K.written sink.new)
        (replies_to size zeros chosen.now.header.choice bytes)) }
    ensures prefix { OnErr result ((bytes : List ℕ) → length bytes ≡ chosen.now.header.size
        → chosen.now.told ≡ is_told bytes → AppendsPrefix (K.written sink.old) (K.written sink.new)
        (replies_to size zeros chosen.now.header.choice bytes)) }
    ensures fault { OnErr result (Rose (K.faults sink.old) (K.faults sink.new)) }
    ensures never_falls { K.faults sink.old ≤ K.faults sink.new }
{
    match chosen.header.choice {
        Choice::ExportName => say_size(sink, size, zeros),
        Choice::Abort => say(sink, Choice::Abort, Reply::Ack, &[]),
        Choice::Exports if chosen.header.size == 0 => {
            say_all(sink, Choice::Exports, Reply::Server, &[0; 4])
        }
        Choice::Exports => say(sink, Choice::Exports, Reply::Invalid, &[]),
        Choice::Info | Choice::Go => say_info(sink, size, chosen),
        Choice::Other(code) => say(sink, Choice::Other(code), Reply::Unsupported, &[]),
    }
}

impl ChosenOption {
    // Where the client and the server stand behind it.
    pub(crate) fn next(&self, phase: SessionPhase) -> SessionPhase
        ensures { (bytes : List ℕ) → self.now.told ≡ is_told bytes
            → result ≡ behind_option phase self.now.header.choice bytes }
    {
        match self.header.choice {
            Choice::ExportName => SessionPhase::Serving,
            Choice::Abort => SessionPhase::Over,
            Choice::Go if self.told => SessionPhase::Serving,
            _ => phase,
        }
    }
}
