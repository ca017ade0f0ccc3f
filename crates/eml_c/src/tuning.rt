// The exports of `eml::tuning`.
ghost use Rattle.std.specs.Prelude.{◌≡◌};
ghost use Rattle.settings.specs.Settings.{usual, settings_refusal};

use settings::Settings;

#[unsafe(no_mangle)]
pub extern "C" fn eml_usual_settings() -> Settings
    ensures { result ≡ usual }
{
    eml::tuning::eml_usual_settings()
}

#[unsafe(no_mangle)]
pub extern "C" fn eml_test_settings(settings: Settings) -> u8
    ensures { result ≡ settings_refusal settings }
{
    eml::tuning::eml_test_settings(settings)
}
