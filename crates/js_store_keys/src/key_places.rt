//! Where the keys of a bucket are.
use js_base::Text;

/// Where the keys of a bucket are: the part of a bucket's description (`kv::Store`) that concerns
/// its keys.
///
/// The value of a key has the subject `prefix` followed by the key. To write it, publish to
/// `put_prefix` followed by the key, or to `prefix` followed by the key if `put_prefix` is `None`.
/// If `api_prefix` is set, it and a dot stand before the subject that you publish to.
#[derive(Debug, PartialEq, Eq, Drop)]
pub struct KeyPlaces {
    /// The bucket's name.
    pub bucket: Text,
    /// What the subjects of the bucket's keys begin with, such as `$KV.config.`.
    pub prefix: Text,
    /// What the subjects of writes begin with, if that is another prefix: the bucket is then a
    /// mirror of one elsewhere.
    pub put_prefix: Option<Text>,
    /// The API prefix, if it stands before the subjects of writes: it is then not `$JS.API`.
    pub api_prefix: Option<Text>,
    /// How many entries of a key the bucket keeps; 0 means 1.
    pub history: u64,
}
