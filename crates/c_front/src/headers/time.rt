// time.h: frames, the clock and the calendar.

pub const TIME: &str = "\
#ifndef TIME_H
#define TIME_H

void end_frame()
{
    wait_frame();
}

void sleep(int frames)
{
    for (int i = 0; i < frames; i++)
        wait_frame();
}

int get_frame_counter()
{
    return port_in(TIM_FrameCounter);
}

int get_cycle_counter()
{
    return port_in(TIM_CycleCounter);
}

int get_date()
{
    return port_in(TIM_CurrentDate);
}

int get_time()
{
    return port_in(TIM_CurrentTime);
}

#endif
";
