//! Laws of what is found in a file of settings.
ghost use Rattle.std.specs.Prelude.{◌≡◌, ℕ, List, [], Some};
ghost use Rattle.iox2_config.specs.Defaults.{IsDefaultConfig};
ghost use Rattle.iox2_config.specs.declared.config.Config.{Config};
ghost use Rattle.config_report.specs.Contradictions.{contradictions_in};
ghost use Rattle.config_report.specs.Findings.{AreInLine, Checks};
ghost use Rattle.config_report.specs.declared.finding.Findings.{Findings};

/// Whatever bytes a file has, no finding has a newline or another control character below 32 in its
/// key or its message.
pub fn findings_stand_in_lines()
    ensures { (bytes : List ℕ) (found : Findings) → Checks bytes found
        → AreInLine found.list.items }
{}

/// The default settings do not contradict each other.
pub fn defaults_have_no_contradictions()
    ensures { (config : Config) → IsDefaultConfig config → contradictions_in (Some config) ≡ [] }
{}
