//! What a consumer is created with, and the current moment.
use crate::setup::{OrderedSetup, Settings};
use js_base::Moment;
use js_json::consumer::Info;

/// What a consumer is created with, and the current moment.
///
/// It says nothing about what happens at that moment. The other arguments of a row say that.
#[derive(Clone, Copy)]
pub struct ConsumerContext<'a> {
    /// What the consumer is told about its connection.
    pub settings: &'a Settings,
    /// How it was set up: for pull or for push.
    pub setup: &'a OrderedSetup,
    /// The first consumer's info, as the server sent it.
    pub first: &'a Info,
    /// The moment at which its rows are passed. Timers that a row arms start here.
    pub moment: Moment,
}
