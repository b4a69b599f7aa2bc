//! What a pull request asks for, within the limits that the consumer's info sets.
ghost use Rattle.std.specs.Prelude.{◌≡◌};
ghost use Rattle.js_pull.specs.Limits as limits;

use js_base::Nanos;
use js_json::consumer::Info;
use js_json::pull::BatchConfig;

const SECOND: Nanos = 1_000_000_000;

/// Returns `batch`, limited to `max_batch`. A `max_batch` of 0 or below sets no limit.
pub fn clamp_batch(batch: u64, max_batch: i64) -> u64
    ensures { result ≡ limits.clamp_batch batch max_batch }
{
    if max_batch <= 0 {
        batch
    } else {
        batch.min(max_batch as u64)
    }
}

/// Returns `expires`, limited to `max_expires`, both in nanoseconds. A `max_expires` of 0 sets no
/// limit.
pub fn clamp_expires(expires: Nanos, max_expires: Nanos) -> Nanos
    ensures { result ≡ limits.clamp_expires expires max_expires }
{
    if max_expires == 0 {
        expires
    } else {
        expires.min(max_expires)
    }
}

/// Returns `heartbeat`, limited to half of `expires`, both in nanoseconds.
pub fn clamp_heartbeat(heartbeat: Nanos, expires: Nanos) -> Nanos
    ensures { result ≡ limits.clamp_heartbeat heartbeat expires }
{
    heartbeat.min(expires / 2)
}

/// Returns what an ordered consumer with this info asks for: 500 messages, an expiry of 30 seconds
/// and a heartbeat of 15 seconds, each within the limits of the info. It asks for no number of
/// bytes.
pub fn ordered_batch_config(info: &Info) -> BatchConfig
    ensures { result ≡ limits.ordered_batch_config info.now }
{
    let expires = clamp_expires(30 * SECOND, info.config.max_expires);
    BatchConfig {
        batch: clamp_batch(500, info.config.max_batch),
        expires: Some(expires),
        no_wait: false,
        max_bytes: 0,
        idle_heartbeat: clamp_heartbeat(15 * SECOND, expires),
        min_pending: None,
        min_ack_pending: None,
        group: None,
        priority: None,
    }
}
