//! What the bytes of a configuration tell, as a law.

ghost use Rattle.std.specs.Prelude.{◌≡◌, ℕ, List};
ghost use Rattle.df_config.specs.ConfigFile.{IsConfigFile};
ghost use Rattle.df_config.specs.declared.config.Config.{Config};

/// The bytes of a file determine its configuration.
pub fn a_configuration_is_one()
    ensures { (bytes : List ℕ) (some other : Config) →
        IsConfigFile bytes some → IsConfigFile bytes other → some ≡ other }
{}
