//! The two releases of PostgreSQL, and the file `PG_VERSION`.

ghost use Rattle.std.specs.Prelude.{◌≡◌, ◌↔◌, codes};
ghost use Rattle.control_file.specs.Version.{version_text_of, catalog_version_of, dir_name_of, version_in};

/// A major version of PostgreSQL that the upgrade knows.
#[derive(Clone, Copy, Debug, PartialEq, Eq)]
pub enum Release {
    /// PostgreSQL 15.
    V15,
    /// PostgreSQL 16.
    V16,
}

impl Release {
    /// The whole text of the release's `PG_VERSION` files: the major version's number and a newline.
    pub fn version_text(self) -> &'static [u8]
        ensures { result.now ≡ version_text_of self }
    {
        match self {
            Release::V15 => b"15\n",
            Release::V16 => b"16\n",
        }
    }

    /// The release's `CATALOG_VERSION_NO` (`src/include/catalog/catversion.h`).
    pub fn catalog_version(self) -> u32
        ensures { result ≡ catalog_version_of self }
    {
        match self {
            Release::V15 => 202209061,
            Release::V16 => 202307071,
        }
    }

    /// The name of the release's own directory in each tablespace, `TABLESPACE_VERSION_DIRECTORY`
    /// (`src/include/common/relpath.h`).
    pub fn dir_name(self) -> &'static str
        ensures { result.now ≡ dir_name_of self }
    {
        match self {
            Release::V15 => "PG_15_202209061",
            Release::V16 => "PG_16_202307071",
        }
    }
}

/// The release whose `PG_VERSION` file has exactly these bytes, if there is one.
pub fn read_version(bytes: &[u8]) -> Option<Release>
    ensures value { result ≡ version_in bytes.now }
    ensures v15 { (result ≡ Some Release.V15) ↔ (bytes.now ≡ codes "15\n") }
    ensures v16 { (result ≡ Some Release.V16) ↔ (bytes.now ≡ codes "16\n") }
{
    match bytes {
        b"15\n" => Some(Release::V15),
        b"16\n" => Some(Release::V16),
        _ => None,
    }
}
