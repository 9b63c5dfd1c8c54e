// How a table is cut, kept and scanned.
use vortex_io::Order;

/// How a source keeps the chunks of its columns.
#[derive(Clone, Copy, Debug, PartialEq, Eq)]
pub enum Encode {
    /// As they are.
    Plain,
    /// Whole numbers, texts and bytes by dictionaries, decimals in parts.
    Dict,
    /// Decimals in parts.
    Parts,
}

/// How a table is cut, kept and scanned.
#[derive(Clone, Copy, Debug, PartialEq, Eq)]
pub struct Options {
    /// The rows of a partition, of which the last may have fewer.
    pub partition_rows: u64,
    /// The rows of a split, of which a partition's last may have fewer.
    pub split_rows: u64,
    /// How the chunks are kept.
    pub encode: Encode,
    /// In which order the sources complete fetches.
    pub arrive: Order,
    /// The most steps of a scan, or as many as are enough.
    pub steps: Option<u64>,
}

/// Partitions of 65,536 rows, splits of 8,192, plain chunks, the oldest fetch first, and as many steps as are enough.
impl Default for Options {
    ghost use Rattle.std.specs.Prelude.{◌≡◌};
    ghost use Rattle.vortex_query.specs.Spelled.{default_options};

    ghost is_default = { λ options. options ≡ default_options };

    fn default() -> Options {
        Options {
            partition_rows: 65_536,
            split_rows: 8_192,
            encode: Encode::Plain,
            arrive: Order::First,
            steps: None,
        }
    }
}
