//! `LogInfo`: the tree head of a log, and the shards that it no longer writes to.
ghost use Rattle.std.specs.Prelude.{◌≡◌, None};
ghost use Rattle.sig_rekor_models.specs.LogInfo.{log_info_from_rekor};

use sig_base::{OwnedList, Result, Text, UnexpectedKind};
use sig_rekor::{SignedCheckpoint, decode_hash};

/// A shard of a log that no entry is written to any more.
#[derive(Drop, PartialEq, Eq)]
pub struct InactiveShardLogInfo {
    /// The root hash of the shard's tree in hexadecimal.
    pub root_hash: Text,
    /// What the log signed of the tree.
    pub signed_tree_head: Text,
    /// The shard's identifier.
    pub tree_id: Text,
    /// How many leaves the tree has.
    pub tree_size: u64,
}

/// Shards in order.
pub type Shards = OwnedList<InactiveShardLogInfo>;

/// A tree head.
#[derive(Drop, PartialEq, Eq)]
pub struct LogInfo {
    /// The root hash of the log's tree.
    pub root_hash: [u8; 32],
    /// How many leaves the tree has.
    pub tree_size: u64,
    /// What the log signed of the tree.
    pub signed_tree_head: SignedCheckpoint,
    /// The identifier of the shard that is written to.
    pub tree_id: Option<Text>,
    /// The shards that are not written to any more.
    pub inactive_shards: Option<Shards>,
}

/// A tree head as Rekor's API returns it: the root hash is a text in hexadecimal.
#[derive(Drop, PartialEq, Eq)]
pub struct RekorLogInfo {
    /// The root hash of the log's tree in hexadecimal.
    pub root_hash: Text,
    /// How many leaves the tree has.
    pub tree_size: u64,
    /// What the log signed of the tree.
    pub signed_tree_head: SignedCheckpoint,
    /// The identifier of the shard that is written to.
    pub tree_id: Option<Text>,
    /// The shards that are not written to any more.
    pub inactive_shards: Option<Shards>,
}

impl LogInfo {
    /// The tree head of these parts, without identifiers of shards.
    pub fn new(root_hash: [u8; 32], tree_size: u64, signed_tree_head: SignedCheckpoint) -> LogInfo
        ensures { result ≡ record {
          root_hash = root_hash;
          tree_size = tree_size;
          signed_tree_head = signed_tree_head;
          tree_id = None;
          inactive_shards = None;
        } }
    {
        LogInfo {
            root_hash,
            tree_size,
            signed_tree_head,
            tree_id: None,
            inactive_shards: None,
        }
    }

    /// Returns the tree head that the API's one is. It takes no memory.
    ///
    /// Errors, as of [`decode_hash`]:
    /// - `HexDecodeError`: the root hash is not an even number of hexadecimal digits;
    /// - `UnexpectedError` of `RootLength`: it is of another number of bytes than 32.
    ///
    /// `laws::api_heads` says when each comes.
    #[tactic(auto, unfolding(crate::specs::LogInfo::log_info_from_rekor))]
    pub fn try_from_rekor(raw: RekorLogInfo) -> Result<LogInfo>
        ensures { result ≡ log_info_from_rekor raw }
    {
        let root_hash = decode_hash(
            raw.root_hash.as_str().as_bytes(),
            UnexpectedKind::RootLength,
        )?;
        Ok(LogInfo {
            root_hash,
            tree_size: raw.tree_size,
            signed_tree_head: raw.signed_tree_head,
            tree_id: raw.tree_id,
            inactive_shards: raw.inactive_shards,
        })
    }
}
