//! Where the streams are that a stream mirrors or sources.
ghost use Rattle.std.specs.Prelude.{◌≡◌, IfOk, Some, option_map, map, string_bytes};
ghost use Rattle.std.specs.List.{list_any};
ghost use Rattle.js_json_stream_bodies.specs.declared.stream.config.Config.{Config};
ghost use Rattle.js_call_streams.specs.SourceDomains.{has_two_places as has_two_places_in, mirror_has_two_places, a_source_has_two_places, two_places as two_places_in, domain_prefix as domain_prefix_in, in_domain, placed, placed_in};

use js_base::{Items, OutOfMemory, Text, TryClone, both, replace_with};
use js_json_stream_bodies::stream::{Config, External, Source};
use std::alloc::{AllocError, Global};

fn has_two_places(source: &Source) -> bool
    ensures { result ≡ has_two_places_in source.now }
{
    source.domain.is_some() && source.external.is_some()
}

fn mirror_has_two_places(mirror: &Option<Source>) -> bool
    ensures { result ≡ mirror_has_two_places mirror.now }
{
    match mirror {
        None => false,
        Some(source) => has_two_places(source),
    }
}

fn a_source_has_two_places(sources: &Option<Items<Source>>) -> bool
    ensures { result ≡ a_source_has_two_places sources.now }
{
    match sources {
        None => false,
        Some(sources) => any_has_two_places(sources.as_slice()),
    }
}

fn any_has_two_places(sources: &[Source]) -> bool
    ensures { result ≡ list_any has_two_places_in sources.now }
{
    sources.iter().any(|source| has_two_places(source))
}

/// Returns whether the mirror or one of the sources has both a domain and an external.
pub(crate) fn two_places(config: &Config) -> bool
    ensures { result ≡ two_places_in config.now }
{
    mirror_has_two_places(&config.mirror) || a_source_has_two_places(&config.sources)
}

fn domain_text(alloc: Global, domain: &str) -> Result<String, AllocError>
    ensures { IfOk result (λ text. string_bytes text ≡ domain_prefix_in domain.now) }
{
    format!(in alloc; "$JS.{domain}.API")
}

/// Returns the prefix of the API's subjects in a domain. Fails only with `OutOfMemory`.
pub fn domain_prefix(alloc: Global, domain: &str) -> Result<Text, OutOfMemory>
    ensures { IfOk result (λ prefix. prefix ≡ domain_prefix_in domain.now) }
{
    Ok(Text::from(domain_text(alloc, domain)?))
}

fn in_domain(alloc: Global, domain: &str) -> Result<External, OutOfMemory>
    ensures { IfOk result (λ external. external ≡ in_domain domain.now) }
{
    Ok(External {
        api_prefix: domain_prefix(alloc, domain)?,
        delivery_prefix: None,
    })
}

fn with_external(source: Source, external: External) -> Source
    ensures { result ≡ record source { external = Some external } }
{
    let mut there = source;
    replace_with(&mut there.external, Some(external));
    there
}

fn placed_source(alloc: Global, source: &Source) -> Result<Source, OutOfMemory>
    ensures { IfOk result (λ there. there ≡ placed source.now) }
{
    match (&source.external, &source.domain) {
        (None, Some(domain)) => {
            let (external, there) = both(in_domain(alloc, domain.as_str()), source.try_clone())?;
            Ok(with_external(there, external))
        }
        _ => source.try_clone(),
    }
}

fn placed_mirror(alloc: Global, mirror: &Option<Source>) -> Result<Option<Source>, OutOfMemory>
    ensures { IfOk result (λ there. there ≡ option_map placed mirror.now) }
{
    match mirror {
        None => Ok(None),
        Some(source) => Ok(Some(placed_source(alloc, source)?)),
    }
}

fn placed_each(alloc: Global, sources: &[Source]) -> Result<Vec<Source>, OutOfMemory>
    ensures { IfOk result (λ there. there.items ≡ map placed sources.now) }
{
    let mut there = Vec::new(alloc);
    for source in sources {
        there.push(placed_source(alloc, source)?)?;
    }
    Ok(there)
}

fn placed_sources(
    alloc: Global,
    sources: &Option<Items<Source>>,
) -> Result<Option<Items<Source>>, OutOfMemory>
    ensures { IfOk result (λ there. there ≡ option_map (map placed) sources.now) }
{
    match sources {
        None => Ok(None),
        Some(sources) => Ok(Some(Items::from(placed_each(alloc, sources.as_slice())?))),
    }
}

/// A configuration that a call owns. The calls that create a stream are generic over it, so that
/// none of them opens it where it is dropped.
pub(crate) trait Placing: Drop {
    ghost config: { Self → Config };

    /// Returns the configuration.
    fn config(&self) -> &Config
        ensures { result.now ≡ config self.now };

    /// Gives each mirror or source that has only a domain the domain's API as its external. Do not
    /// use the configuration after `OutOfMemory`.
    fn place_all(&mut self, alloc: Global) -> Result<(), OutOfMemory>
        ensures { IfOk result (λ _. config self.new ≡ placed_in (config self.old)) };
}

impl Placing for Config {
    ghost config = { λ config. config };

    fn config(&self) -> &Config {
        self
    }

    fn place_all(&mut self, alloc: Global) -> Result<(), OutOfMemory> {
        let mirror = placed_mirror(alloc, &self.mirror)?;
        replace_with(&mut self.mirror, mirror);
        let sources = placed_sources(alloc, &self.sources)?;
        replace_with(&mut self.sources, sources);
        Ok(())
    }
}
