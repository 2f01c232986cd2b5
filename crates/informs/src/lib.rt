//! Informs that tell of no sensor: versions, log entries, and what several clients are told. "Wherever several clients are served, lower
//! numbers come first".
#![tactic(auto)]

ghost use Rattle.std.specs.Prelude.{◌≡◌, not, ◌&&◌, [], ◌∷◌, eqb, get_or};
ghost use Rattle.output.specs.Output.{output, Wrote};
ghost use Rattle.texts.specs.Table.{below};
ghost use Rattle.message.specs.Message.{arg, line};
ghost use Rattle.message.specs.Delivery.{to, Sent};
ghost use Rattle.machine.specs.State.{no_client};
ghost use Rattle.machine.specs.Messages as messages;
ghost use Rattle.machine.specs.Requests.{level_of};

use machine::{Client, Sheet};
use output::Notation;

// The line of an inform on the device's API and build, from the start of out: its length.
fn device_line(out: &mut [u8], name: &[u8], id: u64, sheet: Sheet) -> usize
    ensures { Wrote (output out.old 0) (line (messages.inform_with id name.now (messages.device_args sheet))) (output out.new result) }
{
    let api = sheet.api;
    let build = sheet.build;
    let p = output::put_byte(out, 0, b'#');
    let p = output::put_bytes(out, p, name);
    let p = message::put_id(out, p, id);
    let p = message::put_arg(out, p, b"katcp-device");
    let p = message::put_arg_prefix(out, p, &api, sheet.api_len as usize);
    let p = message::put_arg_prefix(out, p, &build, sheet.build_len as usize);
    output::put_byte(out, p, b'\n')
}

fn deliver_device(
    out: &mut [u8],
    at: usize,
    client: u8,
    name: &[u8],
    id: u64,
    sheet: Sheet,
) -> usize
    ensures { Sent (output out.old at) (to client (messages.inform_with id name.now (messages.device_args sheet)) ∷ []) (output out.new result) }
{
    let start = message::line_start(out.len(), at);
    let n = device_line(&mut out[start..], name, id, sheet);
    let p = message::put_header(out, at, client, n);
    p + n
}

// The inform on the protocol and its version under a profile.
fn deliver_protocol(
    out: &mut [u8],
    at: usize,
    client: u8,
    name: &[u8],
    id: u64,
    profile: u8,
) -> usize
    ensures { Sent (output out.old at) (to client (messages.inform_with id name.now (messages.protocol_args profile)) ∷ []) (output out.new result) }
{
    let part = b"katcp-protocol";
    if machine::is_single(profile) {
        return message::deliver(out, at, client, b'#', name, id, &[part, b"5.1-IB"]);
    }
    message::deliver(out, at, client, b'#', name, id, &[part, b"5.1-MIB"])
}

// Protocol and device with their versions, two informs of one name to a client.
pub fn deliver_versions(
    out: &mut [u8],
    at: usize,
    client: u8,
    name: &[u8],
    id: u64,
    sheet: Sheet,
) -> usize
    ensures { Sent (output out.old at) (to client (messages.inform_with id name.now (messages.protocol_args sheet.profile)) ∷ to client (messages.inform_with id name.now (messages.device_args sheet)) ∷ []) (output out.new result) }
{
    let p = deliver_protocol(out, at, client, name, id, sheet.profile);
    deliver_device(out, p, client, name, id, sheet)
}

// The words of the log levels, by their numbers.
const LEVELS: [u8; 41] = *b"off|fatal|error|warn|info|debug|trace|all";

// The word of a log level as an argument.
pub fn put_arg_level(out: &mut [u8], at: usize, level: u8) -> usize
    ensures { Wrote (output out.old at) (arg (messages.level_text level)) (output out.new result) }
{
    message::put_arg(out, at, texts::word_of(&LEVELS, level as usize))
}

// The level of a word, where a level has it.
pub fn level_named(word: &[u8]) -> Option<u8>
    ensures { result ≡ below 8 (level_of word.now) }
{
    let level = texts::place_of(&LEVELS, word)?;
    Some(level as u8)
}

// The line of a log entry, from the start of out: its length.
fn entry_line(out: &mut [u8], level: u8, clock: u64, logger: &[u8], said: &[u8]) -> usize
    ensures { Wrote (output out.old 0) (line (messages.log_entry level clock logger.now said.now)) (output out.new result) }
{
    let p = output::put_bytes(out, 0, b"#log");
    let p = put_arg_level(out, p, level);
    let p = message::put_arg_number(out, p, Notation::Time, clock);
    let p = message::put_arg(out, p, logger);
    let p = message::put_arg(out, p, said);
    output::put_byte(out, p, b'\n')
}

// A log entry to a client, at every log level.
pub fn deliver_entry(
    out: &mut [u8],
    at: usize,
    client: u8,
    level: u8,
    clock: u64,
    logger: &[u8],
    said: &[u8],
) -> usize
    ensures { Sent (output out.old at) (to client (messages.log_entry level clock logger.now said.now) ∷ []) (output out.new result) }
{
    let start = message::line_start(out.len(), at);
    let n = entry_line(&mut out[start..], level, clock, logger, said);
    let p = message::put_header(out, at, client, n);
    p + n
}

// A log entry to all connected clients, from the start of out.
pub fn entry_to_all(
    out: &mut [u8],
    clients: [Client; machine::CLIENTS],
    level: u8,
    clock: u64,
    logger: &[u8],
    said: &[u8],
) -> usize
    ensures { Sent (output out.old 0) (messages.to_where (λ c. (get_or clients c no_client).connected) (messages.log_entry level clock logger.now said.now)) (output out.new result) }
{
    let mut at: usize = 0;
    for (c, client) in clients.iter().enumerate() {
        if client.connected {
            at = deliver_entry(out, at, c as u8, level, clock, logger, said);
        }
    }
    at
}

// An inform with one argument to all connected clients but one; to all, where that one is no client's number.
pub fn inform_others(
    out: &mut [u8],
    at: usize,
    clients: [Client; machine::CLIENTS],
    but: usize,
    name: &[u8],
    a: &[u8],
) -> usize
    ensures { Sent (output out.old at) (messages.to_where (λ c. (get_or clients c no_client).connected && not (eqb c but)) (messages.inform name.now (a.now ∷ []))) (output out.new result) }
{
    let mut p = at;
    for (c, client) in clients.iter().enumerate() {
        if client.connected & (c != but) {
            p = message::deliver(out, p, c as u8, b'#', name, 0, &[a]);
        }
    }
    p
}
