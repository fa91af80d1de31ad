// What a name is.
ghost use Rattle.std.specs.Prelude.{◌≡◌, nat_lt};
ghost use Rattle.std.specs.List.{list_all};
ghost use Rattle.catalog.specs.Forms.{is_name};

// The most bytes of a name: one less than `NAMEDATALEN` of `pg_config_manual.h`.
const NAME_BYTES: usize = 63;

fn has_no_zero(bytes: &[u8]) -> bool
    ensures { result ≡ list_all (λ b. nat_lt 0 b) bytes.now }
{
    bytes.iter().all(|b| 0 < *b)
}

/// Whether bytes are a name that an object may have: 1 to 63 of them (`NAMEDATALEN` of `pg_config_manual.h`), none of
/// them zero.
pub fn is_name(bytes: &[u8]) -> bool
    ensures { result ≡ is_name bytes.now }
{
    let whole = has_no_zero(bytes);
    0 < bytes.len() && bytes.len() <= NAME_BYTES && whole
}
