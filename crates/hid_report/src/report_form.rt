//! The form of a report.

/// The reports of one ID.
#[derive(Clone, Copy)]
pub struct ReportForm {
    /// 0 where the reports have no ID byte.
    pub id: u8,
    /// Bytes, the ID byte included.
    pub length: u16,
}
