// Descriptions of columns.
use crate::names::Name;
use crate::types::DType;

/// A column's name and type.
pub struct ColumnDesc {
    pub name: Name,
    pub dtype: DType,
}

impl Drop for ColumnDesc {
    fn drop(self) {
        let ColumnDesc {
            name: _name,
            dtype: _dtype,
        } = self;
    }
}
