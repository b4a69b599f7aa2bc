//! The transcript of a consumer that receives a mirror's messages.

ghost use Rattle.std.specs.Prelude.{◌≡◌, ◌<◌, ◌^◌, ◌++◌, codes, decimal, IfOk, OnOk, IsTrue};
ghost use Rattle.json.specs.Print.{quoted};
ghost use Rattle.serde_json.specs.Data.{Data};
ghost use Rattle.js_codes.specs.Name.{is_name};
ghost use Rattle.serde_json.specs.Written.{compact_text};
ghost use Rattle.js_ordered_table.specs.Texts.{config_of as config_in};
ghost use Rattle.js_event_log.specs.Events as relayed;
ghost use Rattle.js_tool_transcript.specs.RelayText as texts;
ghost use Rattle.js_tool_transcript.specs.RelaySetupData as setups;
ghost use Rattle.js_tool_transcript.specs.RelayConfigText.{filter_text, filters_text, further_texts};
ghost use Rattle.js_tool_transcript.specs.RelayTranscript.{AreTexts, ReadsAs, ReplaysTo, StaysHonestIn, relay_transcript};

use crate::text::{push_decimal, push_plain, push_quoted};
use js_base::{Entry, Text};
use js_event_log::{Mirror, ack_subject};
use js_ordered_table::OrderedSetup;
use std::alloc::{AllocError, Global};

fn filter_subjects(setup: &OrderedSetup) -> &[Text]
    ensures { result.now ≡ (config_in setup.now).filter_subjects }
{
    match setup {
        OrderedSetup::Pull(config) => config.filter_subjects.as_slice(),
        OrderedSetup::Push(config) => config.filter_subjects.as_slice(),
    }
}

// ---- the configuration

fn push_filter(out: &mut Vec<u8>, filter: &str) -> Result<(), AllocError>
    ensures { OnOk result (out.new.items ≡ out.old.items ++ filter_text filter.now) }
{
    if filter.is_empty() {
        return Ok(());
    }
    push_plain(out, b",\"filter_subject\":")?;
    push_quoted(out, filter.as_bytes())
}

fn push_further(out: &mut Vec<u8>, filters: &[Text]) -> Result<(), AllocError>
    ensures { OnOk result (out.new.items ≡ out.old.items ++ further_texts filters.now) }
{
    for filter in filters {
        push_plain(out, b",")?;
        push_quoted(out, filter.as_str().as_bytes())?;
    }
    Ok(())
}

fn push_list(out: &mut Vec<u8>, first: &str, further: &[Text]) -> Result<(), AllocError>
    ensures { OnOk result (out.new.items ≡ out.old.items ++ (quoted first.now ++ further_texts further.now)) }
{
    push_quoted(out, first.as_bytes())?;
    push_further(out, further)
}

fn push_filters(out: &mut Vec<u8>, filters: &[Text]) -> Result<(), AllocError>
    ensures { OnOk result (out.new.items ≡ out.old.items ++ filters_text filters.now) }
{
    let Some((first, further)) = filters.split_first() else {
        return Ok(());
    };
    push_plain(out, b",\"filter_subjects\":[")?;
    push_list(out, first.as_str(), further)?;
    push_plain(out, b"]")?;
    Ok(())
}

fn push_start(out: &mut Vec<u8>, start: u64) -> Result<(), AllocError>
    ensures { OnOk result (out.new.items ≡ out.old.items ++ (codes ",\"opt_start_seq\":" ++ (decimal start ++ codes "}"))) }
{
    push_plain(out, b",\"opt_start_seq\":")?;
    push_decimal(out, start)?;
    push_plain(out, b"}")
}

// The text of a configuration with these filters that starts at a sequence.
fn config_of(
    alloc: Global,
    filter: &str,
    filters: &[Text],
    start: u64,
) -> Result<Vec<u8>, AllocError>
    ensures { IfOk result (λ text. text.items ≡ compact_text (setups.config_data filter.now filters.now start)) }
{
    let mut out = Vec::new(alloc);
    push_plain(&mut out, b"{\"deliver_policy\":\"by_start_sequence\"")?;
    push_filter(&mut out, filter)?;
    push_filters(&mut out, filters)?;
    push_start(&mut out, start)?;
    Ok(out)
}

// ---- the lines

// The text of a setup with this configuration.
fn push_setup(out: &mut Vec<u8>, stream: &str, name: &str, config: &[u8]) -> Result<(), AllocError>
    ensures { (d : Data) → config.now ≡ compact_text d → OnOk result (out.new.items ≡ out.old.items ++ texts.value_line (setups.setup_data stream.now name.now d)) }
{
    push_plain(out, b"{\"config\":")?;
    push_plain(out, config)?;
    push_plain(
        out,
        b",\"info\":{\"ack_floor\":{\"consumer_seq\":0,\"stream_seq\":0},\"config\":",
    )?;
    push_plain(out, config)?;
    push_plain(
        out,
        b",\"created\":\"2026-01-01T00:00:00Z\",\"delivered\":{\"consumer_seq\":0,\"stream_seq\":0},\"name\":",
    )?;
    push_quoted(out, name.as_bytes())?;
    push_plain(
        out,
        b",\"num_ack_pending\":0,\"num_pending\":0,\"num_redelivered\":0,\"num_waiting\":0,\"stream_name\":",
    )?;
    push_quoted(out, stream.as_bytes())?;
    push_plain(out, b"},\"mode\":\"pull\",\"settings\":{},\"start\":0}\n")?;
    Ok(())
}

fn push_arrival(
    alloc: Global,
    out: &mut Vec<u8>,
    stream: &str,
    name: &str,
    number: u64,
    entry: &Entry,
) -> Result<(), AllocError>
    ensures text { OnOk result (out.new.items ≡ out.old.items ++ texts.value_line (texts.arrival_data stream.now name.now number entry.now)) }
    ensures fits { entry.now.sequence < 2 ^ 64 }
{
    let reply = ack_subject(alloc, stream, name, entry.sequence, number)?;
    push_plain(out, b"{\"arrival\":{\"inbox\":0,\"payload\":")?;
    push_quoted(out, entry.payload.as_slice())?;
    push_plain(out, b",\"reply\":")?;
    push_quoted(out, reply.as_bytes())?;
    push_plain(out, b",\"subject\":")?;
    push_quoted(out, entry.subject.as_str().as_bytes())?;
    push_plain(out, b"},\"at\":")?;
    push_decimal(out, number)?;
    push_plain(out, b"}\n")?;
    Ok(())
}

fn push_arrivals(
    alloc: Global,
    out: &mut Vec<u8>,
    stream: &str,
    name: &str,
    entries: &[Entry],
) -> Result<(), AllocError>
    ensures text { OnOk result (out.new.items ≡ out.old.items ++ texts.value_lines (texts.arrivals stream.now name.now 1 entries.now)) }
    ensures fit { OnOk result (relayed.AllFit entries.now) }
{
    let mut number = 0;
    for entry in entries {
        number += 1;
        push_arrival(alloc, out, stream, name, number, entry)?;
    }
    Ok(())
}

// ---- the transcript

/// Returns the transcript of an ordered pull consumer called `name`, of a stream called `stream`,
/// that reads a mirror. The consumer starts where the mirror does, has the filters of `setup`, and
/// receives the mirror's entries in order. Each line is compact JSON with sorted keys. Both names
/// have to be valid.
///
/// If the subjects and payloads are UTF-8, as those that come from a transcript are, the bytes can
/// be read back as that transcript, and every replay of it hands out the mirror's entries, in
/// order, without an error item and without a recreation. If the mirror is that of a run with the
/// same setup and an honest server, the server is honest in that replay too.
///
/// # Errors
///
/// Fails with `AllocError` if memory runs out.
pub fn relay_text(
    alloc: Global,
    stream: &str,
    name: &str,
    setup: &OrderedSetup,
    mirror: &Mirror,
) -> Result<Vec<u8>, AllocError>
    requires stream { IsTrue (is_name stream.now) }
    requires name { IsTrue (is_name name.now) }
    ensures text { let config = config_in setup.now in
        IfOk result (λ text. text.items ≡ texts.relay_text stream.now name.now config.filter_subject config.filter_subjects mirror.now.start mirror.now.entries) }
    ensures reads { let config = config_in setup.now in AreTexts config.filter_subject config.filter_subjects mirror.now.entries
        → IfOk result (λ text. ReadsAs text.items (relay_transcript stream.now name.now config.filter_subject config.filter_subjects mirror.now)) }
    ensures replays { let config = config_in setup.now in AreTexts config.filter_subject config.filter_subjects mirror.now.entries
        → IfOk result (λ text. ReplaysTo mirror.now.entries text.items) }
    ensures honest { let config = config_in setup.now in AreTexts config.filter_subject config.filter_subjects mirror.now.entries
        → IfOk result (λ text. StaysHonestIn mirror.now setup.now text.items) }
{
    let filter = setup.filter_subject();
    let filters = filter_subjects(setup);
    let start = mirror.start();
    let config = config_of(alloc, filter, filters, start)?;
    let mut out = Vec::new(alloc);
    push_setup(&mut out, stream, name, &config)?;
    push_arrivals(alloc, &mut out, stream, name, mirror.entries())?;
    Ok(out)
}
