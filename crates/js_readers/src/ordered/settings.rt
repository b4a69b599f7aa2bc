//! The settings of an ordered consumer's reader, from the scope of its calls.
ghost use Rattle.std.specs.Prelude.{◌≡◌};
ghost use Rattle.js_readers.specs.OrderedOpening.{settings_of};

use js_base::{Nanos, Text};
use js_call::ApiScope;
use js_ordered_table::Settings;
use js_pull::Resilience;
use std::alloc::Global;

// What a reader of the scope's consumers is made with, which has these options. Its inboxes have the subjects that the link gives them.
pub(crate) fn settings_of(
    alloc: Global,
    scope: ApiScope,
    request_timeout: Option<Nanos>,
    resilience: Resilience,
) -> Settings
    ensures { result ≡ settings_of resilience scope request_timeout }
{
    Settings {
        api_prefix: scope.prefix,
        inbox_prefix: Text::from(String::new(alloc)),
        context_timeout: scope.timeout,
        request_timeout,
        retries: u32::MAX,
        resilience,
    }
}
