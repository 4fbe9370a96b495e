//! The worked rows of mappings and documents, computed from the definitions. They stand apart from `doc`, so that a row more touches nothing that stands on it.
#![tactic(auto)]

ghost use Rattle.doc_rows.specs.Rows.{Row_mappings, Row_documents, Row_depths};

/// The worked rows: mappings with objects in one another, documents with objects under them, and how deep both may be.
pub fn rows()
    ensures mappings { Row_mappings }
    ensures documents { Row_documents }
    ensures depths { Row_depths }
{}
