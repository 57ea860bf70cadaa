//! The versions of documents.

ghost use Rattle.std.specs.Prelude.{◌≡◌};
ghost use Rattle.serde_json.specs.View.{view};
ghost use Rattle.con_document.specs.Session.{version_in, most_clients};

use con_document::Version;
use serde_json::Value;

pub(crate) fn read_version(value: &Value) -> Option<Version>
    ensures { result ≡ version_in (view value.now) }
{
    match value.as_u64() {
        Some(1) => Some(Version::One),
        Some(2) => Some(Version::Two),
        _ => None,
    }
}

pub(crate) fn most_clients_of(version: Version) -> usize
    ensures { result ≡ most_clients version }
{
    match version {
        Version::One => 16,
        Version::Two => 64,
    }
}
