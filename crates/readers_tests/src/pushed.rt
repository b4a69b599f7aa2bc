//! The push consumer of the work queue.

use crate::server::{api, info};
use js_base::{Nanos, OutOfMemory, Text, both};
use js_call_consumers::PushConsumer;
use js_json::consumer::Info;
use js_json::push::Config;
use std::alloc::Global;

fn config(alloc: Global, heartbeat: Nanos) -> Config {
    let mut config = Config::new(alloc);
    config.idle_heartbeat = heartbeat;
    config
}

fn deliver_to(alloc: Global, info: &mut Info, subject: &str) -> Result<(), OutOfMemory> {
    info.config.deliver_subject = Some(Text::from_str(alloc, subject)?);
    info.config.deliver_group = Some(Text::from_str(alloc, "g")?);
    Ok(())
}

fn pushing(alloc: Global, subject: &str) -> Result<Info, OutOfMemory> {
    let mut info = info(alloc)?;
    let delivering = if subject == "-" {
        Ok(())
    } else {
        deliver_to(alloc, &mut info, subject)
    };
    let (info, _) = both(Ok(info), delivering)?;
    Ok(info)
}

/// A consumer that delivers to the group `g` of a subject, with that heartbeat. `-` stands for an info without a subject.
pub(crate) fn push_consumer(
    alloc: Global,
    subject: &str,
    heartbeat: Nanos,
) -> Result<PushConsumer, OutOfMemory> {
    let scope = api(alloc)?;
    match pushing(alloc, subject) {
        Ok(info) => Ok(PushConsumer::new(config(alloc, heartbeat), info, scope)),
        Err(OutOfMemory) => Err(OutOfMemory),
    }
}
