// What sources, scans and partitions tell of themselves, and what they answer where they tell nothing.
ghost use Rattle.std.specs.Prelude.{[]};

use vortex_array::ColumnDesc;
use vortex_scan_types::{DataSource, DataSourceScan, Partition, Precision};

/// One that has no columns and tells no number.
struct Silent;

impl DataSource for Silent {
    ghost described = { λ _. [] };

    ghost rows = { λ _. 0 };

    ghost bytes = { λ _. 0 };

    fn columns(&self) -> &[ColumnDesc] {
        &[]
    }
}

impl DataSourceScan for Silent {
    ghost described = { λ _. [] };

    ghost partitions = { λ _. 0 };

    fn columns(&self) -> &[ColumnDesc] {
        &[]
    }
}

impl Partition for Silent {
    ghost number = { λ _. 4 };

    ghost rows = { λ _. 0 };

    ghost bytes = { λ _. 0 };

    fn index(&self) -> u64 {
        4
    }
}

/// One that counts its rows, and guesses its bytes.
struct Counted {
    rows: u64,
}

impl DataSource for Counted {
    ghost described = { λ _. [] };

    ghost rows = { λ s. s.rows };

    ghost bytes = { λ _. 0 };

    fn columns(&self) -> &[ColumnDesc] {
        &[]
    }

    fn row_count(&self) -> Precision<u64> {
        Precision::Exact(self.rows)
    }

    fn byte_size(&self) -> Precision<u64> {
        Precision::Inexact(self.rows)
    }
}

fn is_absent(told: &Precision<u64>) -> bool {
    matches!(told, Precision::Absent)
}

fn source_is_silent<S: DataSource>(source: &S) -> bool {
    source.columns().is_empty() && is_absent(&source.row_count()) && is_absent(&source.byte_size())
}

fn scan_is_silent<S: DataSourceScan>(scan: &S) -> bool {
    scan.columns().is_empty() && is_absent(&scan.partition_count())
}

fn partition_is_silent<P: Partition>(partition: &P, index: u64) -> bool {
    partition.index() == index
        && is_absent(&partition.row_count())
        && is_absent(&partition.byte_size())
}

#[test]
fn what_tells_no_number_answers_absent(rt: HostRuntime) {
    assert!(rt; source_is_silent(&Silent));
    assert!(rt; scan_is_silent(&Silent));
    assert!(rt; partition_is_silent(&Silent, 4));
}

// Whether a source tells so many rows as exact, and as many bytes as a guess.
fn tells<S: DataSource>(source: &S, rows: u64) -> bool {
    let counted = match &source.row_count() {
        Precision::Exact(told) => *told == rows,
        Precision::Inexact(_) | Precision::Absent => false,
    };
    let guessed = match &source.byte_size() {
        Precision::Inexact(told) => *told == rows,
        Precision::Exact(_) | Precision::Absent => false,
    };
    counted && guessed
}

#[test]
fn a_source_tells_how_far_its_numbers_can_be_trusted(rt: HostRuntime) {
    assert!(rt; tells(&Counted { rows: 7 }, 7));
}
