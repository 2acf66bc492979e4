ghost use Rattle.std.specs.Prelude.{◌≡◌};
ghost use Rattle.ipam_records.specs.Said.{said};
ghost use Rattle.ipam_model.specs.Reads.{config_said};

use ipam_records::{Config, Record, Reply};

/// The configuration that was found, or the defaults.
pub fn config_in(reply: &Reply) -> Config
    ensures { result ≡ config_said (said reply.now) }
{
    match reply {
        Reply::Found(_, Record::Config(config)) => *config,
        _ => Config {
            strict: false,
            auto: true,
            max_blocks: 0,
        },
    }
}
