//! Documents that the cases name.

const DOC1: &str =
    r#"{"Incident":[{"Contact":[{"role":"creator","type":"organization"}],"GenerationTime":"2024-01-01T00:00:00Z","IncidentID":{"id":"1","name":"src.example"},"purpose":"reporting"}],"version":"2.0"}"#;

const DOC2: &str =
    r#"{"Incident":[{"Contact":[],"EventData":[{"Description":["x"]},{"Description":["y"],"restriction":"public"}],"GenerationTime":"g","IncidentID":"2","purpose":"reporting","restriction":"private"}],"version":"2.0"}"#;

const DOC3: &str =
    r#"{"Incident":[{"Contact":[{"ContactName":["n"],"Email":[{"EmailTo":"e","restriction":"green"}],"restriction":"red"}],"GenerationTime":"g","IncidentID":"3","purpose":"reporting","restriction":"public"}],"version":"2.0"}"#;

const DOC6: &str =
    r#"{"Incident":[{"Contact":[],"EventData":[{"Description":["x"],"Flow":[{"System":[]}]}],"GenerationTime":"g","IncidentID":"6","purpose":"reporting","restriction":"public"}],"version":"2.0"}"#;

const DOC7: &str =
    r#"{"Incident":[{"Contact":[],"EventData":[{"Description":["x"],"Flow":[{"System":[],"restriction":"red"}]}],"GenerationTime":"g","IncidentID":"7","purpose":"reporting","restriction":"private"}],"version":"2.0"}"#;

/// Returns the document of that name, or the text itself.
pub fn document_text(text: &str) -> &str {
    match text {
        "DOC1" => DOC1,
        "DOC2" => DOC2,
        "DOC3" => DOC3,
        "DOC6" => DOC6,
        "DOC7" => DOC7,
        _ => text,
    }
}
