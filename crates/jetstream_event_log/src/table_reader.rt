//! How a table of a bucket is opened: what configures the consumer that it reads, and what reads it.
ghost use Rattle.std.specs.Prelude.{◌≡◌, ◌<◌, None, Some, IfOk, string_bytes};
ghost use Rattle.js_ordered_table.specs.Texts.{configured_start};
ghost use Rattle.js_ordered_table.specs.declared.setup.OrderedSetup.TheVariants.{Pull};
ghost use Rattle.js_pull.specs.Resilience.{all};
ghost use Rattle.js_readers.specs.OrderedOpening.{OpensPullWith};
ghost use Rattle.js_store_table.specs.Resume.{resumed};
ghost use Rattle.jetstream_event_log.specs.TableReader.{config_of, filter_of, opened_reader};

use js_base::{OutOfMemory, Text};
use js_call_consumers::OrderedPullConsumer;
use js_json::consumer::DeliverPolicy;
use js_json::pull::OrderedConfig;
use js_link::Link;
use js_readers::ordered::pull::Ordered;
use js_readers::ordered::{OrderedPullCalls, Resilience, StreamError};
use js_store_keys::KeyPlaces;
use js_store_table::{Rows, Table};
use std::alloc::{AllocError, Global};

/// What a table reads.
#[derive(Drop)]
#[must_use = "a table reads it"]
pub struct TableReader {
    /// How many messages its consumer has to deliver, as the server told when it was created.
    pending: u64,
    reader: Ordered,
}

fn all_keys(alloc: Global, prefix: &str) -> Result<String, AllocError>
    ensures { IfOk result (λ filter. string_bytes filter ≡ filter_of prefix.now) }
{
    format!(in alloc; "{prefix}>")
}

/// Returns the configuration of the consumer that a table of a bucket reads: all keys of the bucket,
/// from this stream sequence on. Create the consumer on the bucket's stream
/// (`create_consumer_on_stream`), and read it by [`open_reader`].
///
/// `start_sequence` is `next_sequence` of the table's rows: 1 for new rows, and the sequence behind
/// their revision for rows of an earlier table. Another start repeats changes, or leaves some out.
/// Since the start is configured, the rows are those of the bucket's log
/// ([`rows_are_those_of_the_log`](js_store_table::rows_are_those_of_the_log)).
///
/// Fails only with `OutOfMemory`.
pub fn reader_config(
    alloc: Global,
    places: &KeyPlaces,
    start_sequence: u64,
) -> Result<OrderedConfig, OutOfMemory>
    ensures config { IfOk result (λ config. config ≡ config_of places.now start_sequence) }
    ensures start { 0 < start_sequence → IfOk result (λ config. configured_start (Pull config) ≡ Some start_sequence) }
{
    let filter = all_keys(alloc, places.prefix.as_str())?;
    let mut config = OrderedConfig::new(alloc);
    config.filter_subject = Text::from(filter);
    config.deliver_policy = DeliverPolicy::ByStartSequence { start_sequence };
    Ok(config)
}

/// Opens what reads the consumer that was created by [`reader_config`], for a table. It never hangs
/// (`Resilience::all()`).
///
/// Fails as `messages_with` of the consumer does: with `Other` if the link fails, and with
/// `OutOfMemory` if memory runs out. Nothing was sent then.
pub fn open_reader<L: Link>(
    alloc: Global,
    link: &mut L,
    consumer: OrderedPullConsumer,
) -> Result<TableReader, StreamError>
    ensures opens { OpensPullWith all (opened_reader result) consumer (L.view link.old) (L.view link.new) }
    ensures pending { IfOk result (λ opened. opened.pending ≡ consumer.info.num_pending) }
{
    let pending = consumer.info.num_pending;
    match consumer.messages_with(alloc, link, Resilience::all()) {
        Ok(reader) => Ok(TableReader { pending, reader }),
        Err(error) => Err(error),
    }
}

impl TableReader {
    /// Returns the table of these rows, new ones or those of an earlier table, which reads on from
    /// where they end. It is current at once if nothing is to come.
    pub fn table(self, rows: Rows) -> Table<Ordered>
        ensures { result ≡ record { reader = self.reader; rows = resumed self.pending rows; unread = None } }
    {
        let TableReader { pending, reader } = self;
        Table::resume(rows, pending, reader)
    }
}
