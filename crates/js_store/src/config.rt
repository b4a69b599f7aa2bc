//! The configurations of buckets, and the configurations of the streams that follow from them.
ghost use Rattle.std.specs.Prelude.{◌≡◌, IfOk, List, ℕ};
ghost use Rattle.js_call_streams.specs.Create.{Creates};
ghost use Rattle.js_json_stream_bodies.specs.declared.stream.config.Config.{Config};

use js_base::{OutOfMemory, Text, TryClone, both};
use js_call::ApiScope;
use js_call_streams::{CreateStream, create_stream};
use js_json_stream_bodies::stream;
use std::alloc::Global;

/// The configuration of a bucket. The configuration of its stream is built in two steps: first the
/// parts that take memory, then all else.
pub(crate) trait BucketConfig: Drop {
    /// The parts that take memory.
    type Names: Drop;

    /// The bucket's name.
    ghost bucket: { Self → List ℕ };

    /// The configuration of the bucket's stream.
    ghost stream: { Self → Config };

    /// The configuration of the bucket's stream, built from the rest of this configuration and the
    /// parts that took memory.
    ghost with: { Self → Self.Names → Config };

    fn bucket(&self) -> &Text
        ensures { result.now ≡ bucket self.now };

    /// Builds the parts that take memory. It moves the streams that the bucket copies out of the
    /// configuration. Fails only with `OutOfMemory`.
    fn take_names(&mut self, alloc: Global) -> Result<Self::Names, OutOfMemory>
        ensures { IfOk result (λ names. with self.new names ≡ stream self.old) };

    /// Returns the configuration of the bucket's stream, built from the parts that took memory and
    /// all else.
    fn with(self, names: Self::Names) -> stream::Config
        ensures { result ≡ with self names };
}

/// Returns the configuration of a bucket's stream. Fails only with `OutOfMemory`.
pub(crate) fn stream_of<C: BucketConfig>(
    alloc: Global,
    mut config: C,
) -> Result<stream::Config, OutOfMemory>
    ensures { IfOk result (λ stream. stream ≡ C.stream config) }
{
    let names = config.take_names(alloc)?;
    Ok(config.with(names))
}

// The call that makes the stream which a bucket is.
fn create_stream_of<C: BucketConfig>(
    alloc: Global,
    scope: &ApiScope,
    config: C,
) -> Result<CreateStream, OutOfMemory>
    ensures { IfOk result (λ create. Creates scope.now (C.stream config) create) }
{
    create_stream(alloc, scope, stream_of(alloc, config)?)
}

/// Returns the bucket's name, and the call that creates its stream. Fails only with `OutOfMemory`.
pub(crate) fn create_its_stream<C: BucketConfig>(
    alloc: Global,
    scope: &ApiScope,
    config: C,
) -> Result<(Text, CreateStream), OutOfMemory>
    ensures { IfOk result (λ made. (made.0 ≡ C.bucket config) × Creates scope.now (C.stream config) made.1) }
{
    let bucket = config.bucket().try_clone();
    both(bucket, create_stream_of(alloc, scope, config))
}
