// The call that adds a trace to a report. The report is bytes in the layout of `reports`, settings in that of `layout`.
ghost use Rattle.std.specs.Prelude.{◌≡◌};
ghost use Rattle.uf2_receiver.specs.Receiver.{lent_at, left_at};
ghost use Rattle.traceapi.specs.FiguresCall.{figures_return, figures_call_of};

// One trace more: where its replay stopped, as `uf2_replay` has it, or 70 or 71, which leave report and buffers.
#[unsafe(no_mangle)]
pub extern "C" fn uf2_figures(
    report: &mut [u8],
    settings: &[u8],
    trace: &[u8],
    flash: &mut [u8],
    seen: &mut [u8],
    sectors: &mut [u8],
    main: &mut [u8],
    xip: &mut [u8],
    index: &mut [u8],
) -> u32
    ensures { figures_return result report.new index.new (left_at flash.new seen.new sectors.new main.new xip.new) ≡ figures_call_of report.old settings.now trace.now index.old (lent_at flash.old seen.old sectors.old main.old xip.old) }
{
    let was = trace_layout::reports::read_report(report);
    let s = settings_layout::read_settings(settings);
    match trace_report::add(was, s, trace, flash, seen, sectors, main, xip) {
        Ok(added) => {
            trace_layout::reports::write_report(report, added.report);
            trace_layout::put_stop(index, added.stop);
            trace_layout::result(Ok(added.stop))
        }
        Err(error) => trace_layout::result(Err(error)),
    }
}
